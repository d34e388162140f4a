//! How many events a run makes: its receives, its sends, and the ends of its activations.
//!
//! An outcome tells of each of them, so that they are counted once the run is over.
mod counting;
pub mod laws;

pub use counting::{count_events, run_counted};
