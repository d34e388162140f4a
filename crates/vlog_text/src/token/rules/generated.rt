//! What `tools/grammar_tables.py` writes from `docs/verilog.grammar`.

pub mod kind;
pub mod nonterminal;
pub mod production;
pub mod tables;
