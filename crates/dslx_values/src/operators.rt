//! What the operators of a DSLX text give for values: numbers, operators, casts, slices, indices and builtins.
//!
//! Each call is its definition in `dslx_meaning`, where `None` is an operand that is none of the operator's.
mod arrays;
mod binary;
mod builtins;
mod number;
mod numbers;
mod slices;
mod unary;
mod width;

pub use arrays::{element_value, index_value, update_value, updated};
pub use binary::binary_value;
pub use builtins::{all_ones, count_leading, count_trailing, parity, reversed, some_one};
pub use number::number_value;
pub use numbers::{index_number, of_one_type, truth, turns};
pub use slices::{cast_value, part_value, slice_value};
pub use unary::prefix_value;
pub use width::WidthOutOfRange;
