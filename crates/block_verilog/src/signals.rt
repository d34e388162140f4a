//! The hardware of IR procs: the signals of their nodes and sites, and where their registers stand.
pub mod laws;
pub mod layout;
pub mod procs;
