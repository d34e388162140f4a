//! Constants, and names of types.
//!
//! Each function has what the parts came to, looks up what is known of other items, and promises that it comes to the judgement by the
//! definitions. What recurses along trees is elsewhere.
mod constants;
mod type_names;

pub use constants::{constant_typing, size_limited, untyped_constant};
pub use type_names::type_named;
