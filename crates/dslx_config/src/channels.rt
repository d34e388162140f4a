//! Types of words that channels hold, and types without signs and names.
//!
//! Each call is its definition in `dslx_meaning` or `dslx_core::lowering`. No call recurses deeper than a type is nested.
mod plain;
mod travel;

pub use plain::plain_type;
pub use travel::can_travel;
