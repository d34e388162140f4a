//! Building the tree of a DSLX text from the bottom up.
//!
//! The steps of the text's derivation say when a token is added and when a rule of the grammar is complete; [`RULES`] says
//! for each rule what it makes of the parts of its symbols, which stand on a stack for each sort.
mod builder;
mod rule;
mod table;

pub use builder::build;
pub use table::{RULES, rules_are_those_of_the_table};
