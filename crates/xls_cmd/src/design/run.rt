ghost use Rattle.std.specs.Prelude.{◌≡◌, ◌<◌, ◌^◌, Ok, length, IfOk, IfErr};
ghost use Rattle.xls_cmd.specs.Shared.Done.{StopsBy};
ghost use Rattle.cmd_line.specs.Bounds.{IsWorkerCount};
ghost use Rattle.cmd_line.specs.Named.{named_run};
ghost use Rattle.xls_cmd.specs.Design.Commands.{run_texts};
ghost use Rattle.xls_cmd.specs.Design.Ready.{IsReady, shown};

use crate::design::network::{inputs_of_design, made_network};
use crate::design::running::{run_text, run_text_alone};
use crate::design::source::read_design;
use crate::shared::Refusal;
use cmd_line::{How, Run};
use dslx_core::Design;
use net_core::Inputs;
use std::alloc::{AllocError, Global};
use std::sync::Wait;
use std::thread::Threads;
use xb_io::Gate;

/// What a run of a design is made of.
#[derive(Drop)]
pub struct RunnableDesign {
    pub design: Design,
    pub inputs: Inputs,
}

/// Reads the design and the words of its inputs, once both files are loaded.
pub fn runnable_design<'a>(
    alloc: Global,
    arguments: &Run<&'a str>,
    bytes: &[u8],
    file: &[u8],
) -> Result<RunnableDesign, Refusal<'a>>
    requires design { length bytes.now < 2 ^ 32 }
    requires inputs { length file.now < 2 ^ 32 }
    ensures gives { IfOk result (λ ready. run_texts (named_run arguments.now) bytes.now file.now (Ok (shown arguments.now.how ready))) }
    ensures refused { IfErr result (StopsBy (run_texts (named_run arguments.now) bytes.now file.now)) }
    ensures fits { IfOk result IsReady }
{
    dslx_elab::runs::accepted_texts_run();
    is_number(arguments.how.activations);
    let design = read_design(alloc, arguments.design, arguments.top, bytes)?;
    let inputs = inputs_of_design(alloc, arguments.inputs, file, &design)?;
    Ok(RunnableDesign { design, inputs })
}

/// What a run of a design by several workers shows.
pub fn run_design<R: Threads + Wait + Sync, G: Gate + Sync>(
    rt: &R,
    alloc: Global,
    ready: &RunnableDesign,
    how: How,
    gate: &G,
) -> Result<Vec<u8>, AllocError>
    requires workers { IsWorkerCount how.workers }
    requires fits { IsReady ready.now }
    ensures { IfOk result (λ text. text.items ≡ shown how ready.now) }
{
    is_number(how.activations);
    let made = made_network(alloc, &ready.design)?;
    run_text(
        rt,
        alloc,
        &made.net,
        made.bodies.as_slice(),
        &ready.inputs,
        how,
        gate,
    )
}

/// What a run of a design in one thread shows.
pub fn run_design_alone(
    alloc: Global,
    ready: &RunnableDesign,
    how: How,
) -> Result<Vec<u8>, AllocError>
    requires fits { IsReady ready.now }
    ensures { IfOk result (λ text. text.items ≡ shown how ready.now) }
{
    is_number(how.activations);
    let made = made_network(alloc, &ready.design)?;
    run_text_alone(alloc, &made.net, made.bodies.as_slice(), &ready.inputs, how)
}

/// It has 32 bits.
fn is_number(_number: u32)
    ensures { _number < 2 ^ 32 }
{}
