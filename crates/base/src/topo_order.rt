//! Orders in which each thing comes after those that it needs, or a thing that needs itself; all things that do, and which need
//! one another.
//!
//! Things are named by number; `needs[i]` lists what thing i needs. The walks are linear in the things and needs, and keep
//! their path in a vector: they don't recurse, however long a chain is.
mod groups;
mod sorting;
mod walk;

pub use groups::{groups_of, needing_themselves};
pub use sorting::{Sorted, sort};
