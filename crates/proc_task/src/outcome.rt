//! What the tasks of a run have come to, and whether the run is over.
//!
//! All is read off what the tasks count themselves. Where these counts show that no proc can go, the run has come to its
//! final cut, whatever the threads did before.
mod ends;
mod outcomes;
mod stops;
mod tasks;

pub use ends::{receiver, sender};
pub use outcomes::outcome;
