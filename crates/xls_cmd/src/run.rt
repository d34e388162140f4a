//! The command `run`.
//!
//! What it gives stands in `specs/Run/Commands`.
//!
//! Cost: linear in the files, and in the events of the run; each event of a package costs the nodes up to it.
mod command;
mod ready;

pub use command::{run_file, run_file_alone};
