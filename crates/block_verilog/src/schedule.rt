//! Scheduled packages as blocks: a legal schedule cuts each proc of a verified package into a pipeline.
//!
//! There is no code here, but definitions (`specs/Schedule/`) and the laws.
pub mod laws;
