//! How many procs and channels the network of an accepted text has, and the limits on both.
mod counting;
mod size;

pub use counting::network_size;
pub use size::{NetworkSize, over_limit};
