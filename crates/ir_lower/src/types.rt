//! The types of checked expressions, of steps and of functions, computed.
//!
//! A type is given only where each part has one that a node may have: a lowering relies on it (`node_type`). What breaks this gives
//! none, and so does a call of a function without a signature for its operands, which is then named. `find` finds the signatures of a
//! checked text's functions by the calls that lack one, and `check` tests all of them.
mod aggregates;
mod binding;
mod exprs;
mod finding;
mod fitting;
mod functions;
mod limits;
mod literals;
mod signature;
mod steps;
mod stop;
mod words;

pub use exprs::type_of;
pub use finding::{sign, unsigned_all};
pub use functions::check;
pub use limits::within;
pub use signature::Signature;
pub use steps::check_steps;
pub use stop::{Call, Stop};
