ghost use Rattle.std.specs.Prelude.{◌≡◌, ◌<◌, ◌≤◌, ◌^◌, Ok, length, IfOk, IfErr};
ghost use Rattle.xls_cmd.specs.Shared.Done.{IsDone, StopsBy};
ghost use Rattle.xls_cmd.specs.Shared.Events.{file_events};
ghost use Rattle.xls_cmd.specs.Shared.Step.{ExpectedBy};
ghost use Rattle.cmd_line.specs.Named.{named_schedule};
ghost use Rattle.xls_cmd.specs.Schedule.Commands.{demands_of, schedule, schedule_files, schedule_loaded};

use crate::lowered::package_to_schedule;
use crate::schedule::scheduling::scheduled;
use crate::shared::{Refusal, load};
use cmd_line::{Schedule, Timing};
use pipe_schedule::Demands;
use std::alloc::Global;
use xb_io::Files;

/// `schedule FILE --clock PS [--stages N] [--ii N] [--from F] [--top NAME]`
pub fn schedule_file<'a, F: Files>(
    alloc: Global,
    files: &mut F,
    arguments: Schedule<&'a str>,
) -> Result<Vec<u8>, Refusal<'a>>
    requires { 1 ≤ arguments.timing.stages }
    ensures { let asked = named_schedule arguments.entry in
        IsDone (λ text. text.items) (ExpectedBy (F.told files.old) (λ holds. schedule holds asked)) (schedule_files asked)
        (file_events F.asked F.faults F.taken files.old files.new) result }
{
    let design = load(alloc, files, arguments.design)?;
    schedule_loaded(alloc, &arguments, &design)
}

/// What `schedule` gives once the file is loaded.
fn schedule_loaded<'a>(
    alloc: Global,
    arguments: &Schedule<&'a str>,
    bytes: &[u8],
) -> Result<Vec<u8>, Refusal<'a>>
    requires short { length bytes.now < 2 ^ 32 }
    requires some { 1 ≤ arguments.now.timing.stages }
    ensures gives { IfOk result (λ text. schedule_loaded (named_schedule arguments.now) bytes.now (Ok text.items)) }
    ensures refused { IfErr result (StopsBy (schedule_loaded (named_schedule arguments.now) bytes.now)) }
{
    let ir = package_to_schedule(
        alloc,
        arguments.source,
        arguments.design,
        arguments.top,
        bytes,
    )?;
    scheduled(alloc, &ir, demands_of(arguments.timing))
}

/// What the words ask of schedules.
pub fn demands_of(timing: Timing) -> Demands
    ensures { result ≡ demands_of timing }
{
    Demands {
        clock: timing.clock,
        stages: timing.stages,
        interval: timing.interval,
    }
}
