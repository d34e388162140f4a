//! Runs of IR texts.
//!
//! What each gives stands in `specs/Ir/Commands`.
//!
//! Cost: linear in the files; each event of a run costs the nodes up to it.
pub mod laws;
mod run;
mod source;

pub use run::{RunnablePackage, run_package, run_package_alone, runnable_package};
pub use source::read_package;
