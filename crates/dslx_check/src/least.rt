//! That the fault of a text is found however its instances are found.
pub mod laws;
