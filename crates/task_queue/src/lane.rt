//! The deque of one worker. The worker puts tasks at its end and takes them at its front, and the others steal at the front.
//!
//! It is under a rule: what was started or put there is what was taken and what lies there, whatever the threads do. So no
//! task is lost and none comes out twice.
mod deque;
mod item;
mod tally;

pub use deque::{Lane, Thief, Window, open};
pub use item::Item;
pub use tally::Tally;
