//! The package of a design, and the command `ir`.
//!
//! What it gives stands in `specs/Lowered/Commands`.
//!
//! Cost: linear in the size of the design's procs, with their calls and turns put in place.
mod command;
pub mod laws;
mod source;

pub use command::ir_design;
pub use source::{package_by, package_to_schedule};
