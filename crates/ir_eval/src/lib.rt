//! Procs of packages as bodies of networks.
//!
//! `IrBody` evaluates nodes in line order, once an activation that goes on: an event costs as much as the nodes since the last one.
//! [`pure_value`] is the value of one node. `specs/` of `ir_tree` says what each node's value is.
#![tactic(auto)]

mod bodies;
mod body;
mod operation;
pub mod outcomes;
mod scope;
mod walk;
mod width;

pub use bodies::bodies_of;
pub use body::IrBody;
pub use scope::{Scope, pure_value};
