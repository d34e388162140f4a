//! What readers and writers of texts share: names, lines and their positions, digits both ways, and words of letters
//! and digits.
//!
//! Each call takes time and memory as the text that it reads or writes is long.
mod lines;
mod name;
mod numbers;
mod words;

pub use lines::{Line, Lines};
pub use name::Name;
pub use numbers::{digit_value, number, push_decimal, push_hex};
pub use words::{begins_word, is_utf8, is_word, is_word_byte};
