//! Small procs made of data, for the tests of whatever runs networks.
#![tactic(auto)]

mod asking;
pub mod blocks;
mod body;
mod checks;
mod sample;

pub use asking::ask_and_step;
pub use checks::{bodies_fit, depths_fit, inputs_fit, net_fits};
pub use sample::{Port, Sample, Source, Step, When};
