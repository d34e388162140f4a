//! What parts of declarations, which calls and spawns ask for, and the top of a text come to, by walks over their parts.
mod parametrics;
mod parts;
mod prefixes;
mod signatures;
mod tops;

pub use parts::part_seen;
pub use tops::{TopSeen, top_seen};
