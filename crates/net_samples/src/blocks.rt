//! Small pipelines that run cycle by cycle, by a logic that is given, and do what the laws of pipelined hardware say.
mod machine;
mod sample;

pub use machine::{Asserted, Machine, Ports};
pub use sample::{Action, Next, Sample, SampleSite, StageEntry, word};
