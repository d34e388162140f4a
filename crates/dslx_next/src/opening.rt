//! The steps of expressions that stand as statements, without what they bind.
mod open;
mod opened;
mod work;

/// Of the crate below, passed on: a crate that stands on this one need not name that one too.
pub use dslx_config::members::outer_type;
pub use open::open_step;
pub use opened::{OpenStep, with_shape};
pub use work::{Conditional, NextScope, lower};
