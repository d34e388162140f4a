//! Spans of a text, and the refusals that name them.
//!
//! Every reader and checker of the compiler answers one of these.
#![tactic(auto)]

mod fault;
pub mod laws;
mod limit;
pub mod nesting;
mod piece;
mod read_error;
mod span;

pub use fault::{Fault, first_of};
pub use limit::{Limit, What};
pub use piece::Piece;
pub use read_error::ReadError;
pub use span::{Rule, Span};
