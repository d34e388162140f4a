//! A round of workers over the tasks of a run, whatever they do: each worker takes tasks from its own deque and steals from the others,
//! and all tasks come back in the end.
//!
//! No task is lost and none comes back twice, whatever the threads do.
mod pulse;
mod rounds;
mod share;
mod steps;
mod worker;

pub use rounds::{RoundEnd, round};
pub use steps::Steps;
