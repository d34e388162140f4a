//! Which values patterns fit, and whether a match fits all.
//!
//! Each function looks up what is known of items by their numbers, and promises what it answers by the definitions. What recurses
//! along expressions is elsewhere.
mod fits;
mod items;
mod matches;
mod ways;
mod words;

pub use items::{enum_at, item_fields, item_name};
pub use matches::match_of;
pub use ways::has_way;
pub use words::{Low, low_value, word_count};
