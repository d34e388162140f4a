//! The scheduler: which stage of a pipeline each node of a proc stands in.
//!
//! `specs/Legal` says which schedules are legal, over paths of nodes inside a stage; `schedule` gives the one in which each node
//! has its least stage, or the cause for which there is none. It takes time and memory linear in nodes and operands.
#![tactic(auto)]

mod delays;
pub mod laws;
mod package;
mod schedule;
mod slot;
mod slots;
pub mod text;

pub use package::{Infeasible, schedule_package};
pub use schedule::{Demands, NoSchedule, Schedule, schedule_proc};
