//! What judgements of a text depend on.
//!
//! The instances that a part reaches are of functions that it mentions, or of those that the parametrics of such a
//! function reach (`specs/Typing/TypingRelations/Reached.antt`). Items that reach themselves break a rule, and mean nothing.
mod cycles;
mod reached;

pub use cycles::{
    accepted_texts_have_no_cycle, looping_instances_break_rules, looping_items_mean_nothing,
    rule_3_is_judged,
};
pub use reached::{
    instances_reach_one_another, instances_reach_what_is_below, items_reach_what_they_mention,
    what_is_checked_is_least, what_is_reached_is_mentioned, what_is_sized_reaches_what_it_calls,
};
