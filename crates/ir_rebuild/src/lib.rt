//! Passes over packages: how each rebuilds a proc, proved once; and how nodes of a proc are put.
//!
//! The nodes of a proc are read in line order, and new ones are appended to a new list. A pass says which nodes are kept and what
//! stands for one of them (`Rewrite`); whatever it says, the new package is verified and means the same (`rebuild`).
#![tactic(auto)]

mod copies;
mod keep;
mod moves;
mod nodes;
pub mod normal;
mod pass;
mod proc;
pub mod putting;

pub use copies::{constant_copy, type_copy};
pub use keep::keep_all;
pub use nodes::{append, node_of, type_of};
pub use pass::Rewrite;
pub use proc::rebuild;
