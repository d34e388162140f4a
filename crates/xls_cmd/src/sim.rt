//! The command `sim`: what a module of the Verilog subset does over rows.
//!
//! What it gives stands in `specs/Sim/Simulation`.
//!
//! Cost: linear in the files, and for each cycle linear in the module.
pub mod laws;
mod sim;
mod source;

pub use sim::sim_design;
