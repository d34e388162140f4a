//! Putting nodes for patterns of checked expressions: whether a value fits, and what is bound of it.
//!
//! What a pattern binds is put whether the value fits or not, so that a choice between arms is a choice between their values.
mod binding;
mod fitting;

pub use binding::{bind, bind_arm};
pub use fitting::{fits, fits_any};
