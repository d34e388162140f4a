//! What the rules of statements, blocks, items and procs make of the parts of their symbols.
//!
//! The cost of each call is that of the lists that it takes.
mod blocks;
mod declarations;
mod procs;
mod rule;

pub use rule::{ItemAction, ProcAction, reduce_item, reduce_proc};
