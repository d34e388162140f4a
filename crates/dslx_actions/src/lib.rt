//! What a builder of DSLX's trees keeps: the parts that have been built and not been used, with a stack for each sort.
//!
//! A tree is built from the bottom up. A token adds its part, and where the symbols of a rule of the grammar are complete,
//! the parts that they left become one. By the grammar each part that a rule takes is there; a call that takes one which
//! isn't gets an empty one.
#![tactic(auto)]

mod absent;
mod common;
mod parts;
mod shift;
pub mod types;

pub use absent::{
    NO_DIGITS, NOWHERE, join, no_arg, no_block, no_config, no_definition, no_expr, no_ident,
    no_next, no_pattern, no_type,
};
pub use base::stacks::Stack;
pub use common::one_more;
pub use parts::{Digits, SemanticStacks};
