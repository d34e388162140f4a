//! Packages that mean the same.
//!
//! There is no code here, but the laws: meaning the same is an equivalence, and procs that do the same come to the same events.
mod laws;

pub use laws::{same_behavior_is_an_equivalence, same_procs_come_to_the_same_events};
