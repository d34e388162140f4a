//! Verified packages keep types: their nodes have values of their types, in every state and whatever words come, and their
//! networks fit.
//!
//! There is no code here, but definitions (`specs/Rules/`), the laws, and a library of lemmas (`proofs/`) for the crates above.
mod laws;

pub use laws::{
    nodes_have_types, procs_fit_their_network, procs_keep_types, sites_are_alone_at_their_ends,
};
