//! Verilog texts: their tokens, their printer, their reader, and that what is printed reads back.
#![tactic(auto)]

pub mod builder;
pub mod parser;
pub mod printer;
pub mod reader;
pub mod round_trip;
pub mod token;
