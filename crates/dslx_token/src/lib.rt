//! The tokens of a DSLX text.
//!
//! [`tokens`] cuts a text into its longest tokens. Each [`Token`] has its span, its bytes and a kind of
//! `crate::rules::kind`, which for a name says what the text declares under it.
//!
//! Cost: linear in the text's length.
#![tactic(auto)]

mod blank;
pub mod bracket_classes;
mod characters;
mod declared;
mod kinds;
mod laws;
mod lexer;
mod number;
pub mod rules;
mod spelling;
mod token;
mod word;

pub use blank::skip_blank;
pub use characters::byte_at;
pub use kinds::tokens;
pub use laws::one_reading;
pub use token::Token;
