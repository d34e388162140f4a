//! What a run is made of, by what its file is written in.

ghost use Rattle.std.specs.Prelude.{◌≡◌, ◌<◌, ◌^◌, Ok, length, IfOk, IfErr};
ghost use Rattle.xls_cmd.specs.Shared.Done.{StopsBy};
ghost use Rattle.cmd_line.specs.Bounds.{IsWorkerCount};
ghost use Rattle.cmd_line.specs.Named.{named_run};
ghost use Rattle.xls_cmd.specs.Run.Commands.{run_texts};
ghost use Rattle.xls_cmd.specs.Run.Ready.{IsReady, shown};

use crate::design::{RunnableDesign, run_design, run_design_alone, runnable_design};
use crate::ir::{RunnablePackage, run_package, run_package_alone, runnable_package};
use crate::shared::Refusal;
use cmd_line::{How, Run, Source};
use std::alloc::{AllocError, Global};
use std::sync::Wait;
use std::thread::Threads;
use xb_io::Gate;

/// A design or a package, with the words of its inputs.
#[derive(Drop)]
pub enum Ready {
    Design(RunnableDesign),
    Package(RunnablePackage),
}

/// Reads what is to run, once both files are loaded.
pub fn ready_of<'a>(
    alloc: Global,
    arguments: &Run<&'a str>,
    bytes: &[u8],
    file: &[u8],
) -> Result<Ready, Refusal<'a>>
    requires design { length bytes.now < 2 ^ 32 }
    requires inputs { length file.now < 2 ^ 32 }
    ensures gives { IfOk result (λ ready. run_texts arguments.now.how.source (named_run arguments.now) bytes.now file.now (Ok (shown arguments.now.how ready))) }
    ensures refused { IfErr result (StopsBy (run_texts arguments.now.how.source (named_run arguments.now) bytes.now file.now)) }
    ensures fits { IfOk result IsReady }
{
    match arguments.how.source {
        Source::Dslx => match runnable_design(alloc, arguments, bytes, file) {
            Ok(ready) => Ok(Ready::Design(ready)),
            Err(refusal) => Err(refusal),
        },
        Source::Ir => match runnable_package(alloc, arguments, bytes, file) {
            Ok(ready) => Ok(Ready::Package(ready)),
            Err(refusal) => Err(refusal),
        },
    }
}

/// What a run by several workers shows.
pub fn run_ready<R: Threads + Wait + Sync, G: Gate + Sync>(
    rt: &R,
    alloc: Global,
    ready: &Ready,
    how: How,
    gate: &G,
) -> Result<Vec<u8>, AllocError>
    requires workers { IsWorkerCount how.workers }
    requires fits { IsReady ready.now }
    ensures { IfOk result (λ text. text.items ≡ shown how ready.now) }
{
    match ready {
        Ready::Design(ready) => run_design(rt, alloc, ready, how, gate),
        Ready::Package(ready) => run_package(rt, alloc, ready, how, gate),
    }
}

/// What a run in one thread shows.
pub fn run_ready_alone(alloc: Global, ready: &Ready, how: How) -> Result<Vec<u8>, AllocError>
    requires fits { IsReady ready.now }
    ensures { IfOk result (λ text. text.items ≡ shown how ready.now) }
{
    match ready {
        Ready::Design(ready) => run_design_alone(alloc, ready, how),
        Ready::Package(ready) => run_package_alone(alloc, ready, how),
    }
}
