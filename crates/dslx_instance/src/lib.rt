//! The table of instances, the tasks that make one, and steps over what was made.
#![tactic(auto)]

pub mod steps;
pub mod table;
pub mod tasks;
