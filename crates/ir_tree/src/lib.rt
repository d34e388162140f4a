//! Packages of the intermediate language: their text, what it means, their rules and limits.
//!
//! A package is a tree without spans: channels, and procs of nodes in line order, each named by its index. `specs/` says what
//! each node's value is (`NodeValues`), what a proc does in an activation (`Activations`), which network a package is
//! (`Networks`), and when two mean the same (`SameBehavior`).
#![tactic(auto)]

mod constant;
mod ir_type;
mod network;
mod node;
pub mod node_types;
mod operands;
mod package;
pub mod rules;

pub use constant::Constant;
pub use ir_type::IrType;
pub use network::net_of;
pub use node::{Attributes, Node, Operand, Role};
pub use operands::Operands;
pub use package::{Channel, Ends, Package, Proc};
