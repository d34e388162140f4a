//! The order in which the instances of an accepted text's procs are made: each behind those that it spawns, the top's at the end.
mod adding;
mod design;
mod order;

pub use design::accepted_design;
pub use order::spawn_order;
