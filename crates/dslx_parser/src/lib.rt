//! Reading the tokens of a DSLX text into its tree.
//!
//! [`parse`] accepts exactly the token lists that the grammar of `dslx_token::rules` derives and that nest no deeper than the
//! limit; [`read`] cuts a text into its tokens before.
#![tactic(auto)]

pub mod builder;
pub mod built;
pub mod depths;
pub mod ends;
mod laws;
mod reader;
pub mod spans;
pub mod syntax;
mod text;

pub use laws::one_reading;
pub use reader::parse;
pub use text::{Parsed, read};
