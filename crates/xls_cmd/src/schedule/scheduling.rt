//! The steps that make schedules and write them.

ghost use Rattle.std.specs.Prelude.{◌≡◌, ◌≤◌, Ok, IfOk, IfErr};
ghost use Rattle.xls_cmd.specs.Shared.Done.{StopsBy};
ghost use Rattle.pipe_schedule.specs.Packages.{AreSchedules, IsFirstInfeasible};
ghost use Rattle.pipe_schedule.specs.declared.schedule.NoSchedule.TheVariants.{OutOfMemory};
ghost use Rattle.ir_tree.specs.Rules.Verified.{IsVerified};
ghost use Rattle.pipe_schedule.specs.Text.Text.{schedule_text};
ghost use Rattle.xls_cmd.specs.Schedule.Commands.{GivesSchedules, HasSchedules};

use crate::shared::Refusal;
use ir_tree::Package;
use pipe_schedule::text::{infeasible_text, schedule_text};
use pipe_schedule::{Demands, Infeasible, NoSchedule, Schedule, schedule_package};
use std::alloc::{AllocError, Global};
use xb_value::Seq;

/// The text of a package's schedules, or the line of the first proc that has none.
pub fn scheduled<'a>(alloc: Global, ir: &Package, demands: Demands) -> Result<Vec<u8>, Refusal<'a>>
    requires verified { IsVerified ir.now }
    requires some { 1 ≤ demands.stages }
    ensures gives { IfOk result (λ text. GivesSchedules ir.now demands (Ok text.items)) }
    ensures refused { IfErr result (StopsBy (GivesSchedules ir.now demands)) }
{
    let schedules = schedules_of(alloc, ir, demands)?;
    let text = written(alloc, ir, schedules.as_slice())?;
    Ok(text)
}

/// The schedules of a package, or the line of the first proc that has none.
pub fn schedules_of<'a>(
    alloc: Global,
    ir: &Package,
    demands: Demands,
) -> Result<Seq<Schedule>, Refusal<'a>>
    requires verified { IsVerified ir.now }
    requires some { 1 ≤ demands.stages }
    ensures schedules { IfOk result (λ schedules. AreSchedules ir.now.procs demands schedules) }
    ensures refused { IfErr result (StopsBy (HasSchedules ir.now demands)) }
{
    match schedule_package(alloc, ir, demands) {
        Ok(schedules) => Ok(schedules),
        Err(found) => Err(refusal(alloc, ir, demands, found)),
    }
}

/// What is written of schedules.
fn written(alloc: Global, ir: &Package, schedules: &[Schedule]) -> Result<Vec<u8>, AllocError>
    ensures { IfOk result (λ text. text.items ≡ schedule_text ir.now schedules.now) }
{
    let text = schedule_text(alloc, ir, schedules)?;
    Ok(text.into_bytes())
}

/// The refusal for the first proc that has no schedule.
fn refusal<'a>(alloc: Global, ir: &Package, demands: Demands, found: Infeasible) -> Refusal<'a>
    requires { IsFirstInfeasible ir.now.procs demands found }
    ensures { StopsBy (HasSchedules ir.now demands) result }
{
    match found.cause {
        NoSchedule::OutOfMemory => Refusal::OutOfMemory,
        _ => line(alloc, ir, demands, found),
    }
}

/// The same where memory wasn't wanting.
fn line<'a>(alloc: Global, ir: &Package, demands: Demands, found: Infeasible) -> Refusal<'a>
    requires first { IsFirstInfeasible ir.now.procs demands found }
    requires found { found.cause ≡ OutOfMemory → ⊥ }
    ensures { StopsBy (HasSchedules ir.now demands) result }
{
    match infeasible_text(alloc, ir, demands, found) {
        Ok(line) => Refusal::Infeasible(line),
        Err(_) => Refusal::OutOfMemory,
    }
}
