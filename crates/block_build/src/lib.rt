//! Blocks: networks of pipelined procs and FIFOs, what goes through their ports, and their netlists.
#![tactic(auto)]

pub mod laws;
pub mod netlist;
mod ports;

pub use ports::{room, valid_word};
