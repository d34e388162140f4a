//! Whatever breaks no rule is lowered to a part of a checked text: nothing that is accepted is left out.
//!
//! `specs/Expressions/Beside.antt` says which scope matches the type environment, `specs/Expressions/ExprLowering.antt` what it means
//! that a part is lowered to something of its type there.
mod expressions;
mod instances;
mod members;
mod nexts;

pub use expressions::lower_total_expression;
pub use instances::{lower_total_instance, lower_total_instances};
pub use members::members_stand;
pub use nexts::{lower_total_next, lower_total_next_block};
