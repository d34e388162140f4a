//! Which numbers the types of operands infer for the parametrics of a function.
mod inference;
mod written;

pub use inference::{Inference, inferred_for, inferred_from};
