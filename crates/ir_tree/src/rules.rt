//! The rules and limits of packages.
//!
//! `verify` and `check` answer the fault that is named: the one whose line ends first, at one end a rule before a limit.
mod checks;
mod fitting;
mod line_spans;
mod lines;
mod names;
mod rule;
pub mod same;
pub mod typed;
mod verified;

pub use line_spans::{LineSpans, ProcSpans};
pub use verified::{check, verify};
