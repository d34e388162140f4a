//! Steps for constant expressions: names and the items that they stand for, types, sizes and bounds.
mod ty;
mod uses;
mod words;

pub use ty::{step_type, untyped_of};
pub use uses::{is_constant, use_constant, use_member, use_name, use_struct};
pub use words::{binary, cast, number_of, part};
