//! What items, and instances of functions and procs, come to, by walks over their parts.
#![tactic(auto)]

pub mod instances;
pub mod items;
