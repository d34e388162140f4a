//! The value of a checked text's expression, computed; its network, and bodies of its procs.
#![tactic(auto)]

pub mod eval;
pub mod network;
pub mod operate;
pub mod threads;
