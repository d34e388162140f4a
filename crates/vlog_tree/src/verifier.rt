//! The rules and limits of modules of the Verilog subset.
//!
//! `verify` and `check` answer the fault that is named: the one whose part ends first, at one end a rule before a limit.
mod checks;
mod fitting;
pub mod laws;
mod loops;
mod marks;
mod part_spans;
mod parts;
mod ports;
mod rule;
mod verified;
mod walks;

pub use part_spans::PartSpans;
pub use verified::{check, verify};
