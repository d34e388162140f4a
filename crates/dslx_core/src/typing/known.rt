//! That the global environment has all items of a text, where its constants and types are well-typed.
//!
//! It is an induction on chains of items. Each step hides the items that have longer chains, with something else in their place
//! (`specs/Typing/GlobalEnv/Filled.antt`), so that none is left out and the laws of `crate::typing::complete` add one item more.
mod known;

pub use known::all_items_are_known;
