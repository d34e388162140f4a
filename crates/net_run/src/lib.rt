//! Runs of networks in one thread.
#![tactic(auto)]

mod run;

pub use net_core::laws;
pub use run::run_one;
