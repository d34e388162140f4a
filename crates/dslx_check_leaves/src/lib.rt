//! The typings of parts that have no parts of their own, and what a walk over a text promises.
//!
//! specs/Walked says what a function of a walk promises, and proofs/Lemmas how such promises are put together. The walk itself is
//! elsewhere.
#![tactic(auto)]

mod constants;
mod effects;
mod exprs;
pub mod fits;
pub mod named;
mod patterns;
mod types;

pub use constants::HeldConstant;
pub use effects::{bare_value, fits_effect, is_effect, use_channel};
pub use exprs::{member_node, name_node, untyped_of};
pub use patterns::{Names, bind_last_first, bool_pattern, has_type, member_pattern, name_pattern};
pub use types::type_of_name;
