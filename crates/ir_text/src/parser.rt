//! Reading IR texts into packages.
//!
//! [`read_ir`] accepts exactly the texts that the grammar of `ir_builder::token::rules` derives, that nest no deeper than the limit, and whose
//! package breaks no rule and passes no limit.
//!
//! Cost: linear in the text. Nothing recurses deeper than the limit on nesting.
mod laws;
mod read;
mod reader;
mod spans;

pub use laws::one_package;
pub use read::read_ir;
pub use spans::spans_are_of_lines;
