//! What each token of a DSLX text does to the nesting of those behind it.
//!
//! The same sign does different things in different rules: `-` is a prefix or an operator, or the sign of a number. So it
//! goes by the rule of the grammar whose body has the token.
mod by_rule;
mod owners;

pub use by_rule::bracket_classes;
pub use owners::{Owned, takers};
