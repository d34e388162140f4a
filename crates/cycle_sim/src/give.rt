ghost use Rattle.std.specs.Prelude.{◌≡◌, ◌≤◌, ◌+◌, ◌*◌, ◌<◌, ◌^◌, length};
ghost use Rattle.vlog_tree.specs.Value.{bit};
ghost use Rattle.cycle_sim.specs.Stored.{driven, all_driven};

use crate::evaluate::of_bool;
use vlog_tree::Drive;
use xb_bits::Bits;

/// Gives the ports of the channels what the outside drives there. The first port of the first channel is signal `first`.
pub fn give(values: &mut [Bits], first: usize, drives: &[Drive])
    requires { first + 3 * length drives.now ≤ length values.old }
    ensures { values.new ≡ all_driven first drives.now values.old }
{
    let mut at = first;
    for drive in drives {
        drive_channel(values, at, *drive);
        at += 3;
    }
}

/// Gives the ports of a channel what the outside drives there. Its first port is signal `at`.
fn drive_channel(values: &mut [Bits], at: usize, drive: Drive)
    requires { at + 2 < length values.old }
    ensures { values.new ≡ driven at drive values.old }
{
    match drive {
        Drive::Offer(Some(word)) => {
            values[at] = word;
            values[at + 1] = of_bool(true);
        }
        Drive::Offer(None) => {
            values[at] = Bits::new(values[at].width(), 0);
            values[at + 1] = of_bool(false);
        }
        Drive::Ready(ready) => values[at + 2] = of_bool(ready),
    }
}
