//! Putting the nodes of an IR proc that do what a checked proc does.
#![tactic(auto)]

pub mod acts;
pub mod exprs;
pub mod patterns;
pub mod procs;
pub mod steps;
pub mod words;
