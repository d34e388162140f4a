//! A stack that contracts see as a list, the top first.
mod stack;

pub use stack::Stack;
