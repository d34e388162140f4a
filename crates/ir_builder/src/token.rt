//! The tokens of an IR text.
//!
//! [`tokens`] cuts a text into words, numbers and marks. Each [`Token`] has its span, its bytes and a kind of
//! `crate::token::rules::kind`, which for a node's operation and its id depends on the node that they stand in.
//!
//! Cost: linear in the text's length.
mod characters;
mod front;
mod kind;
mod laws;
mod lexer;
mod number;
pub mod rules;
mod token;

pub use laws::one_list_of_tokens;
pub use lexer::tokens;
pub use token::Token;
