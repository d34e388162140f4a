//! What names and numbers of a text stand for: constants, members and structs by their names alone, and a name or a number in a
//! scope where something is lowered.
mod item;
mod named;
mod there;

/// Of the crate below, passed on: a crate that stands on this one need not name that one too.
pub use crate::values::{ScopeEnv, bound_there, constant_there, type_there};
pub use item::{is_constant_named, struct_named};
pub use named::{constant_named, member_named};
pub use there::{name_there, number_there};
