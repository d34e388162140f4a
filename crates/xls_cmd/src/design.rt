//! The command `check`, and runs of designs.
//!
//! What each gives stands in `specs/Design/Commands`, and what is written in `specs/Design/Written`. [`run_text`] writes what a run of any
//! network shows, whatever its procs are made of and however many workers make it.
//!
//! Cost: linear in the files, and in the events of a run.
mod check;
pub mod laws;
mod network;
mod run;
mod running;
mod source;

pub use check::check_design;
pub use network::made_network;
pub use run::{RunnableDesign, run_design, run_design_alone, runnable_design};
pub use running::{depths, run_text, run_text_alone};
pub use source::{check_module, inputs_of, read_design};
