//! The Verilog module of a package, its text, and what goes through its ports.
//!
//! The hardware of each proc is put first ([`signals`], [`pipelines`]), by its schedule ([`schedule`]); then ports, FIFOs and procs
//! are put together. The text reads as the package's module.
//!
//! Cost: that of the module, and linear in the text.
#![tactic(auto)]

pub mod assembly;
pub mod build;
pub mod laws;
pub mod pipelines;
pub mod ports;
pub mod printing;
pub mod procs;
pub mod queues;
pub mod schedule;
pub mod sides;
pub mod signals;
pub mod streams;
pub mod widths;
