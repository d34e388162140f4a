//! The grammar of the Verilog subset, as tables for `base::grammar`.
//!
//! `docs/verilog.grammar` is its text, from which `tools/grammar_tables.py` writes the tables and the names. It is proved
//! here that the tables and the names are those of the rules, and that one token of lookahead decides them, so that
//! [`parse`] is exact.
mod generated;
mod laws;
mod reader;

pub use generated::{kind, nonterminal, production};
pub use laws::{names, one_derivation};
pub use reader::{grammar, parse, steps};
