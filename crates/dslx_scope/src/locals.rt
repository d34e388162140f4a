//! The names that are bound in a body of a text, each with the number of its value and its type.
mod locals;

pub use locals::Locals;
