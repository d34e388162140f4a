//! The top call: everything that the program does, from its words and files to its output and status.
//!
//! The words are read ([`cmd_line`]), their command gives an output or refuses, and the output or the line that says why
//! there is none is put ([`xls_cmd::shared`]). What is expected for which words stands in `specs/Answer`.
#![tactic(auto)]

pub mod design;
pub mod generate;
pub mod ir;
pub mod laws;
pub mod lowered;
pub mod opt;
pub mod run;
pub mod schedule;
pub mod shared;
pub mod sim;
mod top;
pub mod verilog;

pub use top::{answer_alone, xls_main};
