//! The simulator of the Verilog subset, cycle by cycle, and the files of a simulation.
#![tactic(auto)]

mod clock;
pub mod cycles;
mod evaluate;
mod give;
mod order;
pub mod rows;
mod settle;
mod sim;
mod zeros;

pub use sim::Sim;
