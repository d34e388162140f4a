//! The command `schedule`.
//!
//! What it gives stands in `specs/Schedule/Commands`.
//!
//! Cost: linear in the file.
mod command;
pub mod laws;
mod scheduling;

pub use command::{demands_of, schedule_file};
pub use scheduling::schedules_of;
