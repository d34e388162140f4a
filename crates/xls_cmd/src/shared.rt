//! What every command of the program does at its edges: the faults that it refuses for, loading the files that the
//! words name, and putting its output or the line that says why there is none.
//!
//! A command is a list of steps, each of which gives something or a fault. Its meaning in `specs/` is that list, read
//! from top to bottom, so the order of the steps is the order of the causes ([`Fault`], `specs/Shared/Step`). A crate of
//! commands has a function for each, whose contract says that it did what is expected (`specs/Shared/Done`); what the program then
//! puts and answers is stated once (`specs/Shared/Answered`).
//!
//! Cost: linear in the bytes that are loaded and put.
mod fault;
mod loading;
mod pieces;
mod refusal;
mod response;

pub use fault::Fault;
pub use loading::{load, read_text};
pub use pieces::put_pieces;
pub use refusal::{Refusal, or_no_memory};
pub use response::respond;
