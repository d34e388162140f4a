//! Why a file of inputs is refused.

ghost use Rattle.std.specs.Prelude.{◌≡◌};
ghost use Rattle.chan_file.specs.Cause.{word_of};
ghost use Rattle.chan_file.specs.declared.refusal.InputError.TheVariants.{OutOfMemory};

use std::alloc::{AllocError, AllocFailed};

/// What is wrong with a line, in the order in which the faults of one line are looked for.
#[derive(Clone, Copy, Debug, PartialEq, Eq, Hash)]
pub enum Cause {
    /// It is no line of the form, or a word before any channel.
    Syntax,
    /// It names no input.
    Name,
    /// It names a channel that was named before.
    Twice,
    /// Its value is none of the channel's type: a number past its width, or another shape. Printed as `type`.
    Kind,
}

impl Cause {
    /// The word that messages name it by.
    pub fn word(self) -> &'static str
        ensures { result.now ≡ word_of self }
    {
        match self {
            Cause::Syntax => "syntax",
            Cause::Name => "name",
            Cause::Twice => "twice",
            Cause::Kind => "type",
        }
    }
}

/// Why a file of inputs is refused.
#[derive(Clone, Copy, Debug, PartialEq, Eq)]
pub enum InputError {
    /// The first line at fault: what is wrong with it, and the position of its first byte.
    Input(Cause, u32),
    /// There was no memory to answer.
    OutOfMemory,
}

impl From<AllocError> for InputError {
    ghost from_gives = { λ _ e. e ≡ OutOfMemory };

    fn from(_error: AllocError) -> InputError {
        InputError::OutOfMemory
    }
}

impl<T: Drop> From<AllocFailed<T>> for InputError {
    ghost from_gives = { λ _ e. e ≡ OutOfMemory };

    fn from(_error: AllocFailed<T>) -> InputError {
        InputError::OutOfMemory
    }
}
