//! The values of expressions of a checked text.
//!
//! A recursion finds them, as deep as the processor's stack surely goes; below that a machine with stacks of its own, so that no text
//! decides how deep the recursion goes. What they hold grows with the expressions and calls that are open at once.
mod control;
mod direct;
mod machine;
mod operation;
mod plan;
mod stepping;
mod task;
mod value;

pub use value::{Found, value_of};
