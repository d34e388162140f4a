//! The instances of a text's procs: what the `config` of one makes and starts, the state in which it opens, and the steps of its
//! `next`, with the instances of functions that these need.
//!
//! Contracts see what `dslx_core::networks` and `dslx_core::lowering` say that an instance is lowered to. A proc is made once, behind those
//! that it spawns.
#![tactic(auto)]

mod adding;
mod design;
mod instance;
mod network;
pub mod orders;
pub mod runs;

pub use adding::{MadeInstances, add_proc};
pub use design::design_of;
pub use instance::proc_there;
pub use network::{Network, network_there};
