//! Putting the nodes of a proc.
//!
//! A function for each kind of operation puts one behind those that are there. The list only grows, by plain nodes, and stays one
//! that can be read: what is promised of an operand says its type and, whatever values the nodes have, its value by those of its
//! operands. So it holds of every longer list too.
mod bits;
mod equality;
mod nodes;
mod types;

pub use bits::{leading_zeros, resize, trailing_zeros};
pub use equality::equals;
pub use nodes::Nodes;
pub use types::ir_type;
