//! Reading the tokens of a text of the Verilog subset into its module.
//!
//! [`parse`] accepts exactly the token lists that the grammar of `crate::token::rules` derives; the module is built along their
//! derivation by `crate::builder`.
//!
//! Cost: linear in the tokens. Nothing recurses, so no nesting is counted: no text of the grammar has more than two
//! brackets open.
mod laws;
mod reader;
mod spans;

pub use crate::builder::Parsed;
pub use laws::one_parsing;
pub use reader::parse;
pub use spans::spans_are_those_of_tokens;
