//! What the operations of a checked text give for words and values, computed, and its values compared and taken apart.
mod shapes;
mod values;
mod words;

pub(crate) use shapes::{take_pair, take_whole};
pub use shapes::{alike, take_apart, take_first};
pub(crate) use values::{
    binary_given, binary_word_given, cast_given, cast_word_given, is_one_given, place_of,
    unary_given, word_of_one, word_of_slot,
};
pub use values::{
    binary_value, cast_value, condition, element, indexed, part_value, slice_value, unary_value,
    updated, value_at, word_of,
};
pub use words::{binary, cast, unary};
