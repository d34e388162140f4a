//! Putting nodes for checked expressions.
//!
//! What is bound are operands; calls and turns of loops are put in place. The operand of an expression has its value, whatever
//! values the nodes before have, where all its parts have types that nodes may have.
mod exprs;

pub use exprs::lower;
