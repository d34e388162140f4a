//! The core expressions that choices, bindings and parts of values are lowered to, made of those of their parts.
//!
//! Each call is its definition in `dslx_core::lowering`; `None` where types don't fit.
mod control;

pub use control::{lower_bind, lower_choice, lower_element, lower_index};
