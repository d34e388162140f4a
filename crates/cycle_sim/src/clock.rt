ghost use Rattle.std.specs.Prelude.{◌<◌, length, ◌≡◌};
ghost use Rattle.std.specs.List.{All};
ghost use Rattle.vlog_tree.specs.Settled.{values_of};
ghost use Rattle.vlog_tree.specs.Sound.{IsKnownAtom};
ghost use Rattle.cycle_sim.specs.Stored.{stored};

use crate::evaluate::atom;
use vlog_tree::Set;
use xb_bits::Bits;

/// Gives each register what its set says, by the numbers from before any of them changed.
pub fn clock(before: &[Bits], values: &mut [Bits], sets: &[Set])
    requires known { All (λ set. IsKnownAtom (length before.now) set.value) sets.now }
    requires targets { All (λ set. set.target.0 < length values.old) sets.now }
    ensures { values.new ≡ stored sets.now (values_of before.now) values.old }
{
    for set in sets {
        values[set.target.0 as usize] = atom(before, set.value);
    }
}
