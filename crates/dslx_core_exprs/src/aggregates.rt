//! The core expressions that tuples, arrays, structs and their fields are lowered to, made of those of their parts.
//!
//! Each call is its definition in `dslx_core::lowering`; `None` where types don't fit.
mod arrays;
mod fields;
mod filled;
mod parts;
mod tuples;

pub use arrays::lower_array_elements;
pub use fields::{field_of_slot, lower_field};
pub use filled::lower_filled;
pub use parts::{cores_of, types_of};
pub use tuples::{lower_struct, lower_tuple};
