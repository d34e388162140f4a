//! Channels between two procs that run on threads of their own.
//!
//! A channel is a bounded queue of words under a rule. What the run sends on the channel in the end, its stream, is known
//! to contracts before the first word is sent. The sender sends the words of the stream in their order, so what the
//! receiver gets is the beginning of it, whatever the threads do. No lock is taken, and no call but `make` takes memory.
#![tactic(auto)]

mod item;
mod pass;
mod queue;
pub mod streams;
mod view;

pub use item::{Item, Streams};
pub use pass::{RecvPass, SendPass};
pub use queue::{ChanQueue, make};
pub use view::View;
