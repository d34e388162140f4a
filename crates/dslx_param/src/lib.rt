//! The instances of a text's functions: one for each name and list of parametric arguments.
//!
//! Contracts see a table of instances, each of which calls those before it, and whose functions have the values that the text's have
//! (`dslx_core::lowering`). An instance is made where it is asked for first, with those that it needs before it. What isn't made is in no
//! such table.
#![tactic(auto)]

mod made;
pub mod run;
mod work;

pub use made::{add_instance, instance};
pub use work::lower_in;
