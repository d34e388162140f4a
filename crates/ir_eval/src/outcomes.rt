//! Packages that mean the same have the same outcomes.
//!
//! There is no code here, but the law.
mod laws;

pub use laws::same_behavior_has_the_same_outcomes;
