//! The texts of modules of the Verilog subset.
//!
//! A text is printed for any reader of Verilog: spaces round operators, a line for each declaration, assignment and set.
//! It takes time and memory linear in the text.
mod atom;
mod expression;
mod module;

pub use module::print_v;
