//! What every layer stands on: lists, texts, stacks, name tables, orders, readers from grammars.
#![tactic(auto)]

pub mod grammar;
pub mod lists;
pub mod name_table;
pub mod stacks;
pub mod texts;
pub mod topo_order;
