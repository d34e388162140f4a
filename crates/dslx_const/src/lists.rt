//! Steps for constant expressions: several values one after another, as elements, fields and operands.
mod call;
mod field;
mod list;

pub use call::gather_parametric_args;
pub use list::{gather, step_list};
