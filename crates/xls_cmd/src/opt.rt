//! The command `opt`.
//!
//! What it gives stands in `specs/Opt/Commands`.
//!
//! Cost: that of the passes over the package, and linear in the file.
mod command;
pub mod laws;
mod optimising;

pub use command::opt_file;
pub use optimising::written;
