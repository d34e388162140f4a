//! The texts of files and outputs that speak of a network's channels.
//!
//! A channel file gives the words that lie ready on a network's inputs; the outcome text is what a run shows.
//!
//! Cost: reading is linear in the text, but for the look-up of each channel's name, which takes the logarithm of the number
//! of channels; writing is linear in the text that is written. Words of a number type, `bits[N]`, take no memory but what the
//! lists and the text grow by: a line is gone over twice, for its end and for its digits, and a word is one append.
#![tactic(auto)]

mod inputs;
pub mod laws;
mod line;
mod named;
mod number;
mod outcome;
mod refusal;

pub use inputs::read_inputs;
pub use outcome::outcome_text;
pub use refusal::{Cause, InputError};
