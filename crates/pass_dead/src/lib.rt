//! The pass that drops dead nodes: those that no site and no next state needs.
#![tactic(auto)]

mod marks;
mod pass;

pub use pass::{Dead, run};
