//! The work list of the checking of a text, and what parts of declarations and the top come to.
//!
//! Each constant, type, struct and enum is judged once, and so is each instance and each part of a declaration that is asked for. What a walk
//! asks for and isn't known is put on a stack of tasks, and the walk is done anew when that is known.
#![tactic(auto)]

pub mod declarations;
mod instances;
mod items;
mod laws;
mod parts;
mod tasks;
mod tops;
mod work;

pub use instances::key_of;
pub use tops::nothing_reached;
pub use work::{Reaches, Work, there};
