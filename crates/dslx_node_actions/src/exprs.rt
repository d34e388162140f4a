//! What the rules of expressions make of the parts of their symbols.
pub mod atoms;
pub mod braces;
pub mod operators;
