//! Type soundness: what breaks no rule has a type and a value of it, up to whole texts.
pub mod accepted;
pub mod activities;
pub mod complete;
pub mod denotation;
pub mod depends;
pub mod known;
pub mod laws;
pub mod procs;
pub mod sound;
pub mod typed;
pub mod typing;
