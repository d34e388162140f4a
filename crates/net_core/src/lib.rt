//! Networks of procs, the outcome of a run, and the machine that makes the events of a run one at a time.
#![tactic(auto)]

mod activation;
mod body;
mod channel;
mod config;
mod event;
pub mod laws;
mod net;
mod outcome;
mod progress;

pub use activation::Activation;
pub use base::texts::Name;
pub use body::Body;
pub use config::Config;
pub use event::Event;
pub use net::{Chan, Inputs, Kind, Net, ProcHead, Site};
pub use outcome::{Outcome, ProcEnd, Stall, Stream};
