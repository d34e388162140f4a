//! `check`: a text is accepted, or its first fault is named.
#![tactic(auto)]

mod checking;
mod found;
pub mod least;
mod outside;
pub mod settled;
pub mod text;

pub use checking::{Verdict, check};
