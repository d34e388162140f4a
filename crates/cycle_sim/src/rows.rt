//! Row files: what the outside does in each cycle of a module.
//!
//! [`read_rows`] reads each line as a row with the number of its repeats, so that a row that is repeated is there once.
//!
//! Cost: linear in the text and in its rows times the channels, but for the look-up of each channel's name, which takes the
//! logarithm of the number of channels.
mod channels;
mod draft;
mod drives;
mod form;
mod item;
pub mod laws;
mod line;
mod pieces;
mod refusal;
mod rows;

pub use channels::channel_names;
pub use refusal::RowError;
pub use rows::{Repeated, read_rows};
