//! Types of checked expressions: what has one has a value of it.
mod laws;

pub use laws::typed_expressions_have_values;
