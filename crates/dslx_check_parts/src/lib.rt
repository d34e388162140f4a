//! The typings of all parts of a DSLX text: expressions, blocks, statements, patterns, written types, constants and arguments.
//!
//! It is one recursion over the trees. Each function types the parts of a tree in the order of the definitions and gives their typings
//! to the function of its node, which stands in a crate below.
#![tactic(auto)]

mod aggregates;
mod arguments;
mod arrays;
mod builtins;
mod calls;
mod constants;
mod control;
mod effects;
mod exprs;
mod loops;
mod matches;
mod numbers;
mod operators;
mod patterns;
mod scopes;
mod sequences;
mod tokens;
mod types;

pub use arguments::{all_given, all_placed};
pub use constants::{constant, constant_or_untyped, count};
pub use control::block;
pub use exprs::{alone, expr, placed};
pub use patterns::pattern;
pub use sequences::statements;
pub use tokens::{channel, held, token};
pub use types::{inner_type, placed_type, type_expr, type_if};
