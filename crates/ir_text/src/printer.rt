//! Packages as texts.
//!
//! `print_ir` takes time and memory as the text is long, besides a look-up for each operand.
mod line;
mod package;
mod part;

pub use package::print_ir;
