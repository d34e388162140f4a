//! That the global environment of a text is settled: longer chains of items add nothing to it.
pub mod laws;
