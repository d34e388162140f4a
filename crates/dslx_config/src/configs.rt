//! What a proc is lowered to without its `next`: what its `config` makes and spawns, the outer channels of the top, and the
//! state in which it opens.
mod channel;
mod child;
mod config;
mod end;
mod named;
mod number;
mod opening;
mod outer;
mod spawned;
mod word;

pub use child::instance_number;
pub use config::config_there;
pub use named::{find_proc, top_proc};
pub use number::top_parametric_args;
pub use opening::opening_there;
pub use outer::outers_there;
pub use spawned::spawned_there;
