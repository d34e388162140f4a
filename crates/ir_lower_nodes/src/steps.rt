//! Putting nodes for the steps of checked procs.
//!
//! Each receive and each send of a step is a site, whose token is that of the site before. The nodes do what the steps do, whatever
//! the nodes before and behind them do, where all parts of the steps have types that nodes may have.
mod sites;
mod steps;

pub use steps::{lower_step, lower_steps};
