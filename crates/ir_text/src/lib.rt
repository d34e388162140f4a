//! IR texts: their printer, their reader, and that what is printed reads back.
#![tactic(auto)]

pub mod parser;
pub mod printer;
pub mod round_trip;
