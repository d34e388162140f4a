//! Modules of the Verilog subset and what they mean.
//!
//! A module is a flat netlist of one clock: wires with one driver each, and registers that all take their next values at
//! the end of a cycle. It is what the compiler prints for synthesis, and what the simulator runs.
#![tactic(auto)]

mod expression;
pub mod laws;
mod literals;
mod module;
mod reads;
mod row;
mod signal;
pub mod verifier;

pub use base::texts::Name;
pub use expression::{Atom, Binary, Expr, Literal, Order, Simple, Unary};
pub use module::{Assignment, Declaration, Direction, Port, Set, Storage, VModule};
pub use row::{Drive, Outs, Row, Shown};
pub use signal::{Role, Signal};
