//! Texts of DSLX: read, checked and counted; and what of an accepted one is run.
//!
//! The order of the reasons for which a text is refused stands in `specs/Texts`.
#![tactic(auto)]

pub mod count;
mod design;
mod laws;
pub mod order;
mod text;
mod tree;

pub use crate::count::NetworkSize;
pub use design::design_of_text;
pub use laws::one_module;
pub use text::check_text;
