ghost use Rattle.std.specs.Prelude.{◌≡◌, ◌<◌, ◌^◌, length, IfOk};
ghost use Rattle.xls_cmd.specs.Shared.Done.{IsDone};
ghost use Rattle.xls_cmd.specs.Shared.Events.{file_events};
ghost use Rattle.xls_cmd.specs.Shared.Step.{ExpectedBy};
ghost use Rattle.cmd_line.specs.Bounds.{IsWorkerCount};
ghost use Rattle.cmd_line.specs.Named.{named_run};
ghost use Rattle.xls_cmd.specs.Run.Commands.{run_by, run_files};
ghost use Rattle.xls_cmd.specs.Run.Ready.{IsReady, shown};

use crate::run::ready::{Ready, ready_of, run_ready, run_ready_alone};
use crate::shared::{Refusal, load, or_no_memory};
use cmd_line::Run;
use std::alloc::Global;
use std::sync::Wait;
use std::thread::Threads;
use xb_io::{Files, Gate};

/// `run FILE INPUTS --activations N [--workers W] [--depth D] [--from F] [--top NAME]`, by as many workers as the arguments say.
pub fn run_file<'a, R: Threads + Wait + Sync, F: Files, G: Gate + Sync>(
    rt: &R,
    alloc: Global,
    files: &mut F,
    arguments: Run<&'a str>,
    gate: &G,
) -> Result<Vec<u8>, Refusal<'a>>
    requires { IsWorkerCount arguments.how.workers }
    ensures { let asked = named_run arguments.entry in
        IsDone (λ text. text.items) (ExpectedBy (F.told files.old) (λ holds. run_by asked.how.source holds asked)) (run_files asked)
        (file_events F.asked F.faults F.taken files.old files.new) result }
{
    let how = arguments.how;
    match prepare(alloc, files, arguments) {
        Ok(ready) => or_no_memory(run_ready(rt, alloc, &ready, how, gate)),
        Err(refusal) => Err(refusal),
    }
}

/// [`run_file`], in one thread whatever number of workers the arguments say.
pub fn run_file_alone<'a, F: Files>(
    alloc: Global,
    files: &mut F,
    arguments: Run<&'a str>,
) -> Result<Vec<u8>, Refusal<'a>>
    ensures { let asked = named_run arguments.entry in
        IsDone (λ text. text.items) (ExpectedBy (F.told files.old) (λ holds. run_by asked.how.source holds asked)) (run_files asked)
        (file_events F.asked F.faults F.taken files.old files.new) result }
{
    let how = arguments.how;
    match prepare(alloc, files, arguments) {
        Ok(ready) => or_no_memory(run_ready_alone(alloc, &ready, how)),
        Err(refusal) => Err(refusal),
    }
}

/// Loads both files, and reads what is to run.
fn prepare<'a, F: Files>(
    alloc: Global,
    files: &mut F,
    arguments: Run<&'a str>,
) -> Result<Ready, Refusal<'a>>
    ensures done { let asked = named_run arguments.entry in
        IsDone (shown asked.how) (ExpectedBy (F.told files.old) (λ holds. run_by asked.how.source holds asked)) (run_files asked)
        (file_events F.asked F.faults F.taken files.old files.new) result }
    ensures fits { IfOk result IsReady }
{
    let design = load(alloc, files, arguments.design)?;
    let inputs = load(alloc, files, arguments.inputs)?;
    ready_of(alloc, &arguments, &design, &inputs)
}
