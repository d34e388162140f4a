//! What the rules of types and patterns make of the parts of their symbols.
//!
//! The cost of each call is that of the lists that it takes.
mod patterns;
mod rule;
mod types;

pub use rule::{PatternAction, TypeAction, reduce_pattern, reduce_type};
pub use types::named_type;
