//! What goes over the channels of a network in the end, its streams, and what procs that come no further than there do
//! next: each send and each receive is as the rule of its channel requires.
//!
//! So procs that run on threads of their own may send and receive over `chan_queue` without knowing how far the others
//! are.
pub mod laws;
