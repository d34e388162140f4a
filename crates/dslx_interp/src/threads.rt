//! Threads may read a checked text, and bodies of its procs, at the same time: the rows that a run by several threads asks for.
//!
//! `proofs/Lemmas/Threads/Shared` says so of each type of a checked text by its parts; where a bound `Sync` asks it of bodies,
//! `let a = design_field in let b = instance_field in search sendable depth 20` answers.

use crate::network::DslxBody;

/// A body of a proc may be read by several threads at the same time.
pub fn bodies_are_shared(body: &DslxBody<'_>) {
    shared(body)
}

/// What several threads may read at the same time.
fn shared<T: Sync>(_it: &T) {}
