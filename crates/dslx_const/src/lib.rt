//! The values of constant expressions of a text that is not checked yet, and the types, sizes and bounds that are written in it.
//!
//! A machine with stacks of its own finds them: neither calls, one in another, nor expressions take room of the processor's stack.
#![tactic(auto)]

pub mod calls;
mod eval;
mod found;
pub mod lists;
mod node;
mod step;

pub use eval::{block_eval, bound_eval, const_eval, const_eval_over, size_eval, type_eval};
pub use found::{machine_in, machine_over, run, type_found, value_found};
