ghost use Rattle.std.specs.Prelude.{◌≡◌, ◌<◌, [], ◌∷◌, length};
ghost use Rattle.std.specs.List.{AllByRecursion, All};
ghost use Rattle.vlog_tree.specs.Settled.{settled, widths_of};
ghost use Rattle.vlog_tree.specs.Sound.{IsSoundAssignment};
ghost use Rattle.cycle_sim.specs.Ordered.{taken};

use crate::evaluate::expr;
use vlog_tree::Assignment;
use xb_bits::Bits;

/// Gives the target of each assignment its driver's value, in the order of the indices.
pub fn settle(values: &mut [Bits], assignments: &[Assignment], indices: &[u32])
    requires indices { All (λ place. place < length assignments.now) indices.now }
    requires sound { All (IsSoundAssignment (length values.old) (widths_of values.old)) assignments.now }
    ensures { values.new ≡ settled (taken assignments.now indices.now) values.old }
{
    for place in indices {
        take(values, &assignments[*place as usize]);
    }
}

/// Gives the target of an assignment its driver's value.
fn take(values: &mut [Bits], assignment: &Assignment)
    requires { IsSoundAssignment (length values.old) (widths_of values.old) assignment.now }
    ensures { values.new ≡ settled (assignment.now ∷ []) values.old }
{
    let value = expr(values, &assignment.value);
    values[assignment.target.0 as usize] = value;
}
