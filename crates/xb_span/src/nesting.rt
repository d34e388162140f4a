//! How deep the tokens of a DSLX text are nested.
//!
//! The limit on it bounds how deep a tree is, and so each recursion over trees: by about half of its square, since the
//! marks in a bracket count no more where it closes (`dslx_parser::depths`). What a token does to the nesting of those behind it
//! is its [`BracketClass`].
mod bracket_class;
mod depth;

pub use bracket_class::BracketClass;
pub use depth::{MOST, first_over};
