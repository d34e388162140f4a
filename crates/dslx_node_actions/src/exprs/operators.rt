//! What the rules of operators and of what stands behind an atom make of the parts of their symbols.
//!
//! The cost of a call is constant, but for a chain of operators: its tree takes the time of its links for each level of
//! operators.
mod boxes;
mod chain;
mod operators;
mod rule;

pub use rule::{OperatorAction, reduce_operator};
