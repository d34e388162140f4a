//! Written types and constants: what a type must be, what limits count in it, which types are equal, and which constants have one.
mod constants;
mod types;

pub use constants::constant_fits;
pub use types::{
    Marks, bits_in, bits_width, bounded, is_array_of, is_array_sized, is_bits, is_bits_of,
    is_token, leaves_of, levels_of, marks_of, parts_of, same_type, sizes_of, width_of,
};
