//! What the words of the command line say.
//!
//! The words are read by the kit's `clap`; what is said of them here speaks of the faults and the matches that `clap`
//! states for a command, which `specs/CommandLine` writes out. Words that `clap` refuses, a request for help among
//! them, say nothing.
//!
//! Cost: linear in the bytes of the words.
#![tactic(auto)]

mod command;
mod number;
mod request;
mod words;

pub use request::{Check, Gen, How, Ir, Opt, Request, Run, Schedule, Sim, Source, Timing, Verilog};
pub use words::read_words;
