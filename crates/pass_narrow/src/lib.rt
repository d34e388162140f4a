//! The pass that narrows: sums, products and comparisons of extended numbers take no more bits than their values, and slices and
//! extensions go to what they are of.
#![tactic(auto)]

mod node_pattern;
mod nodes;
mod operands;
mod pass;
mod rewritten_node;

pub use nodes::extension;
pub use pass::{Narrow, run};
pub use rewritten_node::{RewrittenNode, narrowed};
