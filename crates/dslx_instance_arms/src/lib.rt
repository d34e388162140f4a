//! Steps where patterns take values apart: blocks, the arms of a match, loops.
#![tactic(auto)]

mod arms;
mod block;
mod held;
pub mod opening;
mod turns;

pub use arms::{begin_arms, take_arm};
pub use block::bind_value;
pub use turns::{make_loop, start_loop};
