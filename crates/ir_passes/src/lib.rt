//! All passes: from a package to one that means the same, in its normal form.
//!
//! A proc's nodes are read in line order, and at each node the rules of all passes are tried until none applies; then dead nodes are
//! dropped. It takes time as there are nodes and operands, but for a factor of the operands' widths.
#![tactic(auto)]

mod laws;
mod optimising;
mod rules;

pub use laws::{optimised_is_given_back, optimised_is_one};
pub use optimising::optimise;
