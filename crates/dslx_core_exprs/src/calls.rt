//! The core expressions that builtins, calls, matches and loops are lowered to, made of those of their parts.
//!
//! Each call is its definition in `dslx_core::lowering`; `None` where types don't fit.
mod builtins;
mod calls;
mod held;
mod loops;
mod matches;
mod turns;

pub use builtins::lower_builtin;
pub use calls::lower_call;
pub use loops::lower_loop;
pub use matches::{arm_of, lower_select};
