//! What is asked of the types of what is lowered, and values as literals.
//!
//! Each call is its definition in `dslx_core::lowering`.
mod literals;
mod types;

pub use literals::{literal, lower_unit, plain_value};
pub use types::{bool_type, into_element, into_part, sign_of, unsigned, width_of_type, word_width};
