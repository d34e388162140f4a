//! The names that are free in an expression or a type: those that stand for values and that it doesn't bind itself.
//!
//! A machine with a stack of its own finds them, so that how high a tree is takes no room of the processor's stack.
mod free;
mod machine;
mod node;
mod pattern;
mod step;
mod task;

pub use free::{names_free_in, names_free_in_type};
