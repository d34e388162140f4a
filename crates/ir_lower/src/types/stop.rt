use std::alloc::{AllocError, AllocFailed};
use xb_value::Ty;

/// Why no type is given.
#[derive(Drop)]
pub enum Stop {
    OutOfMemory,
    /// There is none, or it is none that a node may have.
    Untyped,
    /// A function has no signature for the operands of a call.
    Unsigned(Call),
}

/// A call of the function of this number, over operands of these types.
#[derive(Drop)]
pub struct Call {
    pub function: u64,
    pub arguments: Vec<Ty>,
}

impl From<AllocError> for Stop {
    fn from(_error: AllocError) -> Stop {
        Stop::OutOfMemory
    }
}

impl<T: Drop> From<AllocFailed<T>> for Stop {
    fn from(_error: AllocFailed<T>) -> Stop {
        Stop::OutOfMemory
    }
}
