//! What the rules of expressions with braces make of the parts of their symbols: of blocks, struct values, `if`, `match` and
//! `for`.
//!
//! The cost of each call is that of the lists that it takes.
mod braces;
mod fields;
mod rule;

pub use rule::{BraceAction, reduce_brace};
