//! The operations of the intermediate language: their names, and what each takes.
//!
//! One table, of which reader, printer, rules and meaning speak: `Op::ALL` lists the operations, `Op::name` is how a text
//! spells one, `Op::operand_count` how many operands stand before its attributes, and `Op::attribute_kind` which attributes it has;
//! `Op::delay` is how long one takes, at the width that `Op::timed_by` tells.
#![tactic(auto)]

pub mod laws;
mod name;
mod op;
mod signature;
mod timing;

pub use op::{Binary, Compare, Extend, Op, Reduce, Shift, Unary};
pub use signature::{AttributeKind, Count};
pub use timing::TimedBy;
