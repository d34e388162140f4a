//! What pipelined hardware is made of: the machine of a pipelined proc, and FIFOs.
#![tactic(auto)]

pub mod fifo;
pub mod machine;
