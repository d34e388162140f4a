//! Steps for constant expressions: blocks, and operations of one value or two.
mod value;

pub use value::step_value;
