//! The tree of a chain of binary operators, `a + b * c - d`, by the levels of the operators.
mod chain;
mod laws;

pub use chain::{Link, Operand, tree};
pub use laws::{all_is_made, splits_at_the_last_loosest};
