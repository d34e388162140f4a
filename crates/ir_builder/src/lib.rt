//! The tokens of an IR text, and building packages from them.
//!
//! A package is built from the bottom up, with a stack for each sort of part; what names stand for is looked up as they are read.
//! [`build`] follows the steps in which a derivation of the grammar is completed.
//!
//! Cost: linear in the tokens. Nothing recurses.
#![tactic(auto)]

mod builder;
mod calls;
mod lines;
mod names;
mod parts;
mod rule;
mod state;
pub mod token;

pub use builder::{Spanned, build};
