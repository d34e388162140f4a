//! That what a text's own global environment says is what is asked of all that is known of the text.
pub mod known;
pub mod laws;
pub mod values;
