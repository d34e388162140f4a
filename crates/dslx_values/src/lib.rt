//! The values and the types of a DSLX text, computed: copied, compared, taken apart and put together.
//!
//! Each call is its definition in `dslx_meaning`. No call recurses deeper than a value or a type is nested.
#![tactic(auto)]

mod alike;
mod copies;
mod fill;
pub mod inference;
pub mod operators;
mod parts;
mod same;
mod types;

pub use alike::{equal_value, equal_values};
pub use copies::{copy_name, copy_names, copy_type, copy_types, copy_value, copy_values};
pub use fill::filled;
pub use parts::{
    based_bits, bits_of, bool_value, elements_of, enum_member, field_of, into_elements, items_of,
    unit_value, unsigned_of, value_at,
};
pub use same::{same_type, same_value};
pub use types::{bits_in, bits_or_enum, type_of_value};
