//! Why a row file is refused.

ghost use Rattle.std.specs.Prelude.{◌≡◌};
ghost use Rattle.cycle_sim.specs.declared.rows.refusal.RowError.TheVariants.{OutOfMemory};

use chan_file::Cause;
use std::alloc::{AllocError, AllocFailed};
use xb_span::Limit;

/// Why a row file is refused.
#[derive(Clone, Copy, Debug, PartialEq, Eq)]
pub enum RowError {
    /// The first line at fault: what is wrong with it, and the position of its first byte.
    Input(Cause, u32),
    /// The rows, repeats counted, are more than a file may have.
    Over(Limit),
    /// There was no memory to answer.
    OutOfMemory,
}

impl From<AllocError> for RowError {
    ghost from_gives = { λ _ e. e ≡ OutOfMemory };

    fn from(_error: AllocError) -> RowError {
        RowError::OutOfMemory
    }
}

impl<T: Drop> From<AllocFailed<T>> for RowError {
    ghost from_gives = { λ _ e. e ≡ OutOfMemory };

    fn from(_error: AllocFailed<T>) -> RowError {
        RowError::OutOfMemory
    }
}
