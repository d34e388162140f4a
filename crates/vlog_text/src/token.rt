//! The tokens of a text of the Verilog subset.
//!
//! [`tokens`] cuts a text into words, numbers, literals and marks. Each [`Token`] has its span, its bytes and a kind of
//! `crate::token::rules::kind`, which its own text says.
//!
//! Cost: linear in the text's length, but for a literal of more than 38 digits whose width is near what it needs: that costs
//! the square of its length.
mod characters;
mod front;
mod kind;
mod laws;
mod lexer;
mod power;
pub mod rules;
mod token;

pub use laws::one_list_of_tokens;
pub use lexer::tokens;
pub use token::Token;
