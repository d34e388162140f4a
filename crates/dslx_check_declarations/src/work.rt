//! What is known of a text that is checked, as more and more of it is judged.
pub mod laws;
mod learn;
pub mod places;
mod settling;

pub use learn::{learn_instance, learn_item, learn_part};
