//! Putting nodes for the activations of checked procs.
//!
//! An instance of a proc becomes the nodes of an IR proc: the token with which an activation begins, its steps, and its next state.
//! An activation of the one does what an activation of the other does.
mod next;

pub use next::lower_next;
