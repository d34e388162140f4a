//! A package has one answer to each demand: its schedules, or the one cause.
mod laws;

pub use laws::{
    one_cause, one_infeasible, one_list, one_schedule, schedule_or_cause, schedules_or_infeasible,
};
