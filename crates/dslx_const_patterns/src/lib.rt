//! Steps for constant expressions: patterns, matches and loops.
#![tactic(auto)]

pub mod blocks;
mod choice;
mod pattern;

pub use choice::step_choice;
pub use pattern::{fit_one, use_number};
