//! Steps for constant expressions: calls of functions of the text.
mod call;

pub use call::{step_call, use_function};
