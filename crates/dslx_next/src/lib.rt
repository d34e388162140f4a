//! What a proc's `next` is lowered to: its steps, and its next state.
#![tactic(auto)]

pub mod opening;
pub mod steps;
