//! Instances of functions are opened, called, and closed.
mod call;
mod close;
mod open;

pub use call::{is_done, make_call, missing_for};
pub use close::close_instance;
pub use open::open_instance;
