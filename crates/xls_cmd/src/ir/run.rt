ghost use Rattle.std.specs.Prelude.{◌≡◌, ◌<◌, ◌^◌, Ok, length, IfOk, IfErr};
ghost use Rattle.xls_cmd.specs.Shared.Done.{StopsBy};
ghost use Rattle.cmd_line.specs.Bounds.{IsWorkerCount};
ghost use Rattle.cmd_line.specs.Named.{named_run};
ghost use Rattle.xls_cmd.specs.Ir.Commands.{run_texts};
ghost use Rattle.xls_cmd.specs.Ir.Ready.{IsReady, shown};

use crate::design::{inputs_of, run_text, run_text_alone};
use crate::ir::source::read_package;
use crate::shared::Refusal;
use cmd_line::{How, Run};
use ir_eval::bodies_of;
use ir_tree::{Package, net_of};
use net_core::{Inputs, Net};
use std::alloc::{AllocError, Global};
use std::sync::Wait;
use std::thread::Threads;
use xb_io::Gate;

/// What a run of a package is made of: the package, its network, and the words of its inputs.
#[derive(Drop)]
pub struct RunnablePackage {
    pub ir: Package,
    pub net: Net,
    pub inputs: Inputs,
}

/// Reads the package and the words of its inputs, once both files are loaded.
pub fn runnable_package<'a>(
    alloc: Global,
    arguments: &Run<&'a str>,
    bytes: &[u8],
    file: &[u8],
) -> Result<RunnablePackage, Refusal<'a>>
    requires design { length bytes.now < 2 ^ 32 }
    requires inputs { length file.now < 2 ^ 32 }
    ensures gives { IfOk result (λ ready. run_texts (named_run arguments.now) bytes.now file.now (Ok (shown arguments.now.how ready))) }
    ensures refused { IfErr result (StopsBy (run_texts (named_run arguments.now) bytes.now file.now)) }
    ensures fits { IfOk result IsReady }
{
    let ir = read_package(alloc, arguments.design, bytes)?;
    let net = net_of(alloc, &ir)?;
    let inputs = inputs_of(alloc, arguments.inputs, file, &net)?;
    Ok(RunnablePackage { ir, net, inputs })
}

/// What a run of a package by several workers shows.
pub fn run_package<R: Threads + Wait + Sync, G: Gate + Sync>(
    rt: &R,
    alloc: Global,
    ready: &RunnablePackage,
    how: How,
    gate: &G,
) -> Result<Vec<u8>, AllocError>
    requires workers { IsWorkerCount how.workers }
    requires fits { IsReady ready.now }
    ensures { IfOk result (λ text. text.items ≡ shown how ready.now) }
{
    let bodies = bodies_of(alloc, &ready.ir)?;
    run_text(
        rt,
        alloc,
        &ready.net,
        bodies.as_slice(),
        &ready.inputs,
        how,
        gate,
    )
}

/// What a run of a package in one thread shows.
pub fn run_package_alone(
    alloc: Global,
    ready: &RunnablePackage,
    how: How,
) -> Result<Vec<u8>, AllocError>
    requires fits { IsReady ready.now }
    ensures { IfOk result (λ text. text.items ≡ shown how ready.now) }
{
    let bodies = bodies_of(alloc, &ready.ir)?;
    run_text_alone(alloc, &ready.net, bodies.as_slice(), &ready.inputs, how)
}
