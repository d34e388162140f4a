//! The grammar of DSLX, as tables for `base::grammar`.
//!
//! `docs/dslx.grammar` is its text. `tools/grammar_tables.py` writes from it the tables and the names of the
//! numbers: of the kinds of token in [`kind`], of the nonterminals in [`nonterminal`], and of the
//! productions in [`production`]; and for the prover the rules by these names. It is proved here that the
//! tables and the names are those of the rules, and that one token of lookahead decides them, so that
//! [`parse`] is exact.
mod generated;
mod laws;
mod reader;

pub use generated::{kind, nonterminal, production};
pub use laws::{linear_derivations, names, one_beginning, one_derivation};
pub use reader::{grammar, parse, parse_tree, steps};
