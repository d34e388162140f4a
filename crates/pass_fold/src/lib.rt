//! The pass that folds constants: an operation whose operands are all literals becomes a literal.
#![tactic(auto)]

mod constant;
mod literals;
mod pass;
mod value;

pub use constant::constant_of;
pub use pass::{Fold, run, settled};
