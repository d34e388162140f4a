//! What is in scope at a point of a body: its locals, free names, and written types.
#![tactic(auto)]

pub mod free_names;
pub mod locals;
pub mod written_types;
