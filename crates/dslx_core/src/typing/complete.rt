//! Items whose text is well-typed, where what they mention is in the global environment: their values and types.
//!
//! Each law is one step of an induction on chains of items: where the global environment is complete, typing finds the value or type
//! of an item whose text breaks no rule and passes no limit, and it is what the item denotes (`specs/Typing/Complete/HasValue.antt`).
mod functions;
mod named;

pub use functions::functions_are_known;
pub use named::{constants_are_known, types_are_known, what_is_declared_stays};
