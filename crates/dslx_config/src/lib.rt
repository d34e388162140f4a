//! What a proc's `config` is lowered to: its channels, its members, and the procs that it spawns.
#![tactic(auto)]

pub mod channels;
pub mod configs;
pub mod members;
