//! Types of a DSLX text that are equal in all their parts, the values that are of a type, and the types whose arrays all have
//! elements, computed.
//!
//! Each call is its definition. No call recurses deeper than a type or a value is nested.
mod equal;
mod kinds;
mod sized;

pub use equal::{equal_type, equal_types};
pub use kinds::is_of;
pub use sized::is_sized;
