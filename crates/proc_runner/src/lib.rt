//! Runs of networks on several threads.
#![tactic(auto)]

mod given;
mod lines;
mod ports;
mod rounds;
mod run;
mod start;

pub use run::run_threads;
