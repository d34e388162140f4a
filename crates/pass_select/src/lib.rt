//! The pass over selects: one whose selector is a literal is the case that it names, and one that has a single node as all its cases
//! and its default is that node.
#![tactic(auto)]

mod pass;
mod selects;

pub use pass::{Select, run};
pub use selects::choice;
