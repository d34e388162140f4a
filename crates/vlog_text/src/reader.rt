//! Reading texts of the Verilog subset.
//!
//! [`read_v`] takes exactly the texts of the grammar in docs/verilog.grammar that break no rule and pass no limit.
//!
//! Cost: linear in the text, but for long literals and for a module in which a wire depends on itself.
pub mod laws;
mod read;

pub use read::read_v;
