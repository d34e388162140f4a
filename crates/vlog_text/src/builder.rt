//! Building the module of a text of the Verilog subset, from the bottom up.
//!
//! [`build`] goes through the steps of a derivation: a token is added, or the tree of a production is complete. There is a stack
//! for each sort of part, and names become numbers of signals as they are read. What each step makes stands in
//! `specs/Builder/Building` and `specs/Builder/Rules`.
//!
//! Cost: linear in the steps. Nothing recurses.
mod builder;
mod exprs;
mod ident;
mod items;
mod literal;
mod parsed;
mod rule;
mod shift;
mod signals;
mod state;
mod tail;

pub use builder::build;
pub use parsed::Parsed;
