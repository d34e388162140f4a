//! The tasks that wait to run, for several threads that take them.
//!
//! Each worker has a deque of its own, and steals from the others where it is empty. Each deque is under a rule: what was put there is
//! what was taken and what lies there. So no task is lost and none is run by two threads at once, whatever the threads do. No lock is
//! taken, and no call but `make` takes memory.
#![tactic(auto)]

mod exchange;
pub mod lane;
mod making;
mod numbered;
mod queue;
pub mod round;
mod seat;

pub use making::make;
pub use numbered::Numbered;
pub use queue::{TaskPass, TaskQueue};
