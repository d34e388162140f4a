//! The instances of functions that are done, by their names and parametric arguments, in the order in which they were done.
mod callee;
mod functions;
mod key;
mod table;

pub use callee::callee_there;
pub use table::InstanceTable;
