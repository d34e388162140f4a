//! Modules that are fed with words at one input, while words are taken at one output.
//!
//! [`feed`] runs a module in the simulator, row by row. In each row it offers the first word that the module hasn't taken yet.
//!
//! Cost: for each row the time that the simulator takes. What went through the two channels alone is kept.
mod feeder;
pub mod laws;
mod ports;

pub use feeder::feed;
pub use ports::can_be_fed;
