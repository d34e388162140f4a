//! What expressions do as statements of a `next`: they compute, receive or send.
mod act;

pub use act::{Act, act_of};
