//! The hardware of IR procs that are scheduled: their registers, the wires of their pipelines, and what their registers hold next.
pub mod laws;
pub mod layout;
pub mod pipelines;
