//! What the `next` of a proc is lowered to: a step for each statement, and then the next state, with the instances of functions that they
//! need.
mod body;
mod next;
mod statement;

pub use next::next_there;
