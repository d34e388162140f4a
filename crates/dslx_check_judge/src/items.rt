//! What items come to, by walks over their parts.
//!
//! Each function walks over the text of one item. Where it asked for something that isn't known, what it gives is of no use, and the text is
//! walked anew later.
mod constants;
mod enums;
mod fields;
mod items;
mod members;
mod structs;

pub use items::item_seen;
