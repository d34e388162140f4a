//! Names, constants, patterns and parametric arguments in a scope of a body.
#![tactic(auto)]

pub mod names;
pub mod parametric_args;
pub mod patterns;
pub mod scopes;
pub mod values;
