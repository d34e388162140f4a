ghost use Rattle.std.specs.Prelude.{◌≡◌, ℕ, ◌≤◌, List, Option, Some, codes, OnOk, OnErr};
ghost use Rattle.std.specs.Io.KnownBytes.{Appends};
ghost use Rattle.xb_io.specs.Counts.{HasRisen};
ghost use Rattle.xb_io.specs.Sink.{AppendsPrefix};

use std::error::Error;
use std::fmt;

/// A put failed: a fault of the outside.
#[derive(Clone, Copy, Debug, PartialEq, Eq)]
pub struct Failed;

impl fmt::Display for Failed {
    ghost output = { λ _. Some (codes "cannot write") };

    fn fmt<W: fmt::Write>(&self, f: &mut fmt::Formatter<W>) -> fmt::Result {
        write!(f, "cannot write")
    }
}

impl Error for Failed {}

/// Something that takes bytes, in order.
///
/// The contract has two members for proofs alone: what was written so far, where that is known, and a
/// count of faults, which never falls; one that has reached `u64::MAX` stands still and counts as
/// risen ever after.
pub trait Sink {
    // What was written so far, where this is known.
    ghost written: { Self → Option (List ℕ) };

    // The faults so far.
    ghost faults: { Self → ℕ };

    /// Writes the piece at the end, or after an `Err` a prefix of it. Taking nothing of a piece that
    /// isn't empty is a fault.
    fn put(&mut self, piece: &[u8]) -> Result<(), Failed>
        ensures faults_never_fall { faults self.old ≤ faults self.new }
        ensures ok { OnOk result (Appends (written self.old) (written self.new) piece.now) }
        ensures ok_without_fault { OnOk result (faults self.new ≡ faults self.old) }
        ensures failed { OnErr result (AppendsPrefix (written self.old) (written self.new) piece.now) }
        ensures failed_by_fault { OnErr result (HasRisen (faults self.old) (faults self.new)) };
}
