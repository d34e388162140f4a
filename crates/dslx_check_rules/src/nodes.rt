//! What the nodes of DSLX's trees come to, by what their parts come to: the rules of each kind of node, without the trees.
//!
//! Each function has the typings of a node's parts, types the node, and promises that where these are the judgements of the parts by the
//! definitions, it is the judgement of the node. What recurses along trees is elsewhere.
pub mod aggregates;
pub mod arrays;
pub mod counts;
pub mod lists;
pub mod operators;
mod parts;
pub mod structs;
pub mod written;

pub use parts::{ConstantTyping, CountTyping, Spanned, both, either, settle};
