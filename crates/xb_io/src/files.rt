ghost use Rattle.std.specs.Prelude.{◌≡◌, ℕ, ◌+◌, ◌<◌, ◌≤◌, List, [], ◌∷◌, ◌++◌, Option, Some, None, IfOk, IfErr, OnOk, IfSome, IsSomeAnd, vec_len, length};
ghost use Rattle.xb_io.specs.Counts.{HasRisen, HasRisenBy, raised_by};
ghost use Rattle.xb_io.specs.Contents.{Contents};
ghost use Rattle.xb_io.specs.LoadError.{IfFailed, IfTooBig, UnlessFailed};

use std::alloc::{AllocError, AllocFailed, Global};
use std::error::Error;
use std::fmt;

/// The most bytes that a file may have.
pub const FILE_LIMIT: usize = 4_194_304;

/// Why a file was not loaded.
#[derive(Clone, Copy, Debug, PartialEq, Eq)]
pub enum LoadError {
    OutOfMemory,
    /// The file has more bytes than [`FILE_LIMIT`]. The number is that limit plus one: no more are counted.
    TooBig(u64),
    /// A fault of the outside: there is no such file, or it can't be read.
    Failed,
}

impl fmt::Display for LoadError {
    ghost use Rattle.xb_io.specs.LoadErrorText.{load_error_text};

    ghost output = { λ e. Some (load_error_text e) };

    fn fmt<W: fmt::Write>(&self, f: &mut fmt::Formatter<W>) -> fmt::Result {
        match self {
            LoadError::OutOfMemory => write!(f, "out of memory"),
            LoadError::TooBig(found) => write!(f, "a file of {found} bytes or more"),
            LoadError::Failed => write!(f, "cannot read"),
        }
    }
}

impl Error for LoadError {}

impl From<AllocError> for LoadError {
    ghost use Rattle.xb_io.specs.declared.files.LoadError.TheVariants.{OutOfMemory};

    ghost from_gives = { λ _ e. e ≡ OutOfMemory };

    fn from(_error: AllocError) -> LoadError {
        LoadError::OutOfMemory
    }
}

/// Files by name.
///
/// The contract has four members for proofs alone: the contents of the files, where they are known, the names
/// that were asked for, and two counts, of faults and of bytes taken. A count never falls, and one that
/// has reached `u64::MAX` stands still and counts as risen ever after.
pub trait Files {
    // The contents of the files, where they are known. They never change.
    ghost told: { Self → Option Contents };

    // The names of all loads so far, in their order.
    ghost asked: { Self → List (List ℕ) };

    // The faults so far.
    ghost faults: { Self → ℕ };

    // The bytes taken so far.
    ghost taken: { Self → ℕ };

    /// The bytes of the file of that name, [`FILE_LIMIT`] at most.
    fn load(&mut self, alloc: Global, name: &str) -> Result<Vec<u8>, LoadError>
        ensures told_stays { told self.new ≡ told self.old }
        ensures asks { asked self.new ≡ asked self.old ++ name.now ∷ [] }
        ensures faults_never_fall { faults self.old ≤ faults self.new }
        ensures taken_never_falls { taken self.old ≤ taken self.new }

        ensures ok_within_limit { IfOk result (λ bytes. vec_len bytes ≤ FILE_LIMIT) }
        ensures ok_as_told { IfOk result (λ bytes. IfSome (told self.old) (λ holds. holds name.now ≡ Some bytes.items)) }
        ensures ok_taken { IfOk result (λ bytes. taken self.new ≡ raised_by (vec_len bytes) (taken self.old)) }
        ensures ok_without_fault { OnOk result (faults self.new ≡ faults self.old) }

        // A load fails only by a fault, a name without a file is one, and nothing else is.
        ensures failed { IfErr result (λ e. IfFailed e (HasRisen (faults self.old) (faults self.new))) }
        ensures unless_failed { IfErr result (λ e. UnlessFailed e (faults self.new ≡ faults self.old)) }

        // A file is too big only where it is past the limit.
        ensures too_big { IfErr result (λ e. IfTooBig e (λ found. found ≡ FILE_LIMIT + 1)) }
        ensures too_big_taken { IfErr result (λ e. IfTooBig e (λ _. HasRisenBy (FILE_LIMIT + 1) (taken self.old) (taken self.new))) }
        ensures too_big_as_told { IfErr result (λ e. IfTooBig e (λ _.
            IfSome (told self.old) (λ holds. IsSomeAnd (holds name.now) (λ bytes. FILE_LIMIT < length bytes)))) };
}
