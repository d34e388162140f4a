//! All steps of the machine.

ghost use Rattle.std.specs.Prelude.{◌≡◌, IfOk, true};
ghost use Rattle.dslx_core.specs.Machines.Machine.Reached.{HasEnded};
ghost use Rattle.dslx_instance.specs.Tasks.Shown.{machine_shown};
ghost use Rattle.dslx_param.specs.Run.Runs.{MachineRuns};

use crate::run::machine::step;
use dslx_instance::tasks::InstanceMachine;
use std::alloc::{AllocError, Global};

/// Takes steps until nothing is left to do, or there is no step; whether nothing is left. Past 2^64 - 1 steps it gives up as for
/// want of memory.
#[tactic(auto, using(crate::proofs::OnRun::Further::at_first, crate::proofs::OnRun::Further::goes_on, crate::proofs::OnRun::Further::ends, crate::proofs::OnRun::Further::lacks))]
pub fn run<'a>(machine: &mut InstanceMachine<'a>, alloc: Global) -> Result<bool, AllocError>
    ensures { IfOk result (λ ended. MachineRuns (machine_shown machine.old) (machine_shown machine.new) ended) }
{
    'steps: for _ in 0..u64::MAX {
        if has_ended(machine) {
            return Ok(true);
        }
        if !step(machine, alloc)? {
            return Ok(false);
        }
    }
    Err(AllocError)
}

/// Whether nothing is left to do.
fn has_ended(machine: &InstanceMachine) -> bool
    ensures { result ≡ true → HasEnded (machine_shown machine.now) }
{
    machine.opened.len() == 0 && machine.root.todo.len() == 0
}
