//! A proc that moves from thread to thread: where it stands, what it sent and received, and its rights to its channels.
#![tactic(auto)]

pub mod outcome;
mod port;
mod runtime;
mod task;

pub use port::{Inlet, Outlet};
pub use runtime::Runtime;
pub use task::{Ended, Task};
