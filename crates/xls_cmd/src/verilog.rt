//! The command `verilog`.
//!
//! What it gives stands in `specs/Verilog/Commands`.
//!
//! Cost: that of the package and of its module, and linear in its text.
mod command;
pub mod laws;
mod printing;

pub use command::verilog_file;
