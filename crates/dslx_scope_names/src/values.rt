//! The values of constants, sizes, bounds and written types in a scope where something is lowered: none where they see a name
//! that is bound there.
mod context;
mod local;
mod value;

/// Of the crate below, passed on: a crate that stands on this one need not name that one too.
pub use context::{ScopeEnv, bind_parametric_args};
pub use dslx_const::{const_eval, machine_in, run, type_eval, type_found, value_found};
pub use value::{bound_there, constant_there, size_there, type_there};
