//! Putting nodes for operations of checked expressions on words, and for values that are written out.
//!
//! A value of a checked expression is the value of its operand: both are plain. What is put gives a value for each one that is
//! there, so nothing is promised of an operation whose operands don't fit it.
mod literals;
mod words;

pub use literals::literal;
pub use words::{binary, cast, unary};
