//! What names, numbers, constants and written types are where a body of an instance stands.
mod context;
mod known;
mod name;

pub use crate::names::{member_named, struct_named};
pub use context::scope_env_in;
pub use known::{bound_in_body, constant_in_body, constants_in_body, type_in_body};
pub use name::{literal_if, lower_slot, name_in_body, number_in_body};
