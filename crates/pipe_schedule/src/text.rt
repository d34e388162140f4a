//! The text of schedules, and the line that says why there is none.
mod infeasible;
mod part;
mod text;

pub use infeasible::infeasible_text;
pub use text::schedule_text;
