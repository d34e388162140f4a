//! The parametrics of a call and of an instance, and the arguments of an instance.
mod arguments;
mod bound;
mod constant;
mod number;
mod parametric_args;
mod stand;

pub use arguments::{Arguments, arguments_there};
pub use bound::{bindings_of, scope_of};
pub use parametric_args::{all_parametric_args, parametric_args_of};
pub use stand::parametric_args_are_well_typed;
