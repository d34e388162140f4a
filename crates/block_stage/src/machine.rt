//! Pipelined hardware of one proc: what its registers hold, and what they do in a clock cycle.
pub mod laws;
mod logic;
mod table;

pub use logic::{Handling, Logic, SiteTurn, Step, pipeline_logic};
pub use table::{Table2, Table3};
