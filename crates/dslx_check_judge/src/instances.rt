//! What instances of functions and procs come to, by walks over their parts.
//!
//! Each function walks over the text of one item. Where it asked for something that isn't known, what it gives is of no use, and the text is
//! walked anew later.
mod arguments;
mod bodies;
mod channels;
mod config;
mod functions;
mod parametrics;
mod procs;
mod spawns;

pub use functions::{InstanceSeen, result_seen};
pub use procs::instance_seen;
pub use spawns::{declared_faults, proc_args, reach_proc};
