//! The schedules of all procs of a package.

ghost use Rattle.std.specs.Prelude.{◌≡◌, ◌≤◌, IfOk, IfErr, OnOk};
ghost use Rattle.ir_tree.specs.Rules.Verified.{IsVerified};
ghost use Rattle.pipe_schedule.specs.Timed.{IsOfVerified, timed_proc};
ghost use Rattle.pipe_schedule.specs.Answer.{IsCause};
ghost use Rattle.pipe_schedule.specs.Packages.{AreSchedules, IsFirstInfeasible};
ghost use Rattle.pipe_schedule.specs.Inner.Pushes.{AddsSchedule};

use crate::schedule::{Demands, NoSchedule, Schedule, schedule_proc};
use ir_tree::{Package, Proc};
use std::alloc::Global;
use xb_value::Seq;

/// The first proc of a package that has no legal schedule, by its index, and the cause.
#[derive(Clone, Copy, PartialEq, Eq)]
pub struct Infeasible {
    pub proc: usize,
    pub cause: NoSchedule,
}

/// The schedule of each proc, in their order.
///
/// It takes time and memory linear in the package.
pub fn schedule_package(
    alloc: Global,
    ir: &Package,
    demands: Demands,
) -> Result<Seq<Schedule>, Infeasible>
    requires verified { IsVerified ir.now }
    requires some { 1 ≤ demands.stages }
    ensures schedules { IfOk result (λ schedules. AreSchedules ir.now.procs demands schedules) }
    ensures infeasible { IfErr result (λ error. IsFirstInfeasible ir.now.procs demands error) }
{
    let procs = ir.procs.as_slice();
    let mut schedules = Vec::new(alloc);
    'procs: for i in 0..procs.len() {
        match push_schedule(alloc, &mut schedules, &procs[i], demands) {
            Ok(()) => {}
            Err(cause) => return Err(Infeasible { proc: i, cause }),
        }
    }
    Ok(Seq::from_vec(schedules))
}

/// Puts the schedule of a proc behind those of the procs before.
fn push_schedule(
    alloc: Global,
    schedules: &mut Vec<Schedule>,
    proc: &Proc,
    demands: Demands,
) -> Result<(), NoSchedule>
    requires verified { IsOfVerified proc.now }
    requires some { 1 ≤ demands.stages }
    ensures pushed { OnOk result (AddsSchedule (timed_proc proc.now) demands schedules.old.items schedules.new.items) }
    ensures cause { IfErr result (λ error. IsCause (timed_proc proc.now) demands error) }
{
    match schedule_proc(alloc, proc, demands) {
        Ok(schedule) => match schedules.push(schedule) {
            Ok(()) => Ok(()),
            Err(_) => Err(NoSchedule::OutOfMemory),
        },
        Err(cause) => Err(cause),
    }
}
