//! What the rules of the grammar make of the parts of their symbols: expressions, statements, items and procs.
//!
//! The cost of each call is that of the lists that it takes.
#![tactic(auto)]

pub mod exprs;
pub mod items;
