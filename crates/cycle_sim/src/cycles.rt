//! What is written of the cycles of a module: a line for each row, and a line of what went through each channel.
//!
//! [`simulate`] runs a module over rows, of which each is there once however often it is repeated.
//!
//! Cost: for each cycle the time that the simulator takes, and time linear in the channels and in what is written.
mod bench;
pub mod laws;
mod moved;
mod running;
mod shown;
mod words;

pub use running::simulate;
