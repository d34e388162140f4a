//! What a DSLX text means: its values, its procs, its network, and what its names stand for.
//!
//! These are definitions, in `specs/`. The code has the types and the values that they speak of.
#![tactic(auto)]

pub mod names;
pub mod rules;
mod ty;
mod value;

pub use ty::{BitKind, DslxType};
pub use value::{DslxValue, SignedWord, UntypedLiteral};
