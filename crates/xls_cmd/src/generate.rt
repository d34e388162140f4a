//! The command `gen`: a design that is made, and what comes out of it at each level of the compiler.
//!
//! What it gives stands in `specs/Gen/Commands`, and what is told of a run in `specs/Gen/Told`.
//!
//! Cost: that of the design's runs, and of a simulation of its module over as many rows as its run has events, a few times.
mod command;
mod fitting;
mod hardware;
pub mod laws;
mod packages;
mod running;
mod source;

pub use command::gen_levels;
