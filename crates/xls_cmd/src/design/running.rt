//! What a run of a network shows.

ghost use Rattle.std.specs.Prelude.{◌≡◌, IfOk, map};
ghost use Rattle.net_core.specs.WellFormed.{IsNet, IsInputs, IsDepths, AreBehaviorsOf};
ghost use Rattle.cmd_line.specs.Bounds.{IsWorkerCount};
ghost use Rattle.xls_cmd.specs.Design.Written.{depth_by, depths_by, run_text};

use chan_file::outcome_text;
use cmd_line::How;
use net_core::{Body, Inputs, Kind, Net};
use net_run::run_one;
use proc_runner::run_threads;
use std::alloc::{AllocError, Global};
use std::sync::Wait;
use std::thread::Threads;
use xb_io::Gate;

/// The text of what a run shows. It is the same for every number of workers; one worker takes no thread.
pub fn run_text<B: Body + Sync, R: Threads + Wait + Sync, G: Gate + Sync>(
    rt: &R,
    alloc: Global,
    net: &Net,
    bodies: &[B],
    inputs: &Inputs,
    how: How,
    gate: &G,
) -> Result<Vec<u8>, AllocError>
    requires net { IsNet net.now }
    requires bodies { AreBehaviorsOf net.now (map B.behavior bodies.now) }
    requires inputs { IsInputs net.now inputs.now.words }
    requires workers { IsWorkerCount how.workers }
    ensures { IfOk result (λ text. text.items ≡ run_text net.now (map B.behavior bodies.now) inputs.now how.activations (depths_by how.depth net.now)) }
{
    let depths = depths(alloc, net, how.depth)?;
    let outcome = run_threads(
        rt,
        alloc,
        net,
        bodies,
        inputs,
        how.activations,
        depths.as_slice(),
        how.workers,
        gate,
    )?;
    let text = outcome_text(alloc, net, &outcome)?;
    Ok(text.into_bytes())
}

/// [`run_text`], in one thread whatever number of workers the arguments say.
pub fn run_text_alone<B: Body>(
    alloc: Global,
    net: &Net,
    bodies: &[B],
    inputs: &Inputs,
    how: How,
) -> Result<Vec<u8>, AllocError>
    requires net { IsNet net.now }
    requires bodies { AreBehaviorsOf net.now (map B.behavior bodies.now) }
    requires inputs { IsInputs net.now inputs.now.words }
    ensures { IfOk result (λ text. text.items ≡ run_text net.now (map B.behavior bodies.now) inputs.now how.activations (depths_by how.depth net.now)) }
{
    let depths = depths(alloc, net, how.depth)?;
    let outcome = run_one(
        alloc,
        net,
        bodies,
        inputs,
        how.activations,
        depths.as_slice(),
    )?;
    let text = outcome_text(alloc, net, &outcome)?;
    Ok(text.into_bytes())
}

/// The depth that each channel of a network has, 1 at least: where the arguments have one, that is the depth of inner channels.
pub fn depths(alloc: Global, net: &Net, arguments: Option<u32>) -> Result<Vec<u32>, AllocError>
    ensures depths { IfOk result (λ depths. depths.items ≡ depths_by arguments net.now) }
    ensures fit { IfOk result (λ depths. IsDepths net.now depths.items) }
{
    let depths = depths_of(alloc, net, arguments)?;
    Ok(depths)
}

fn depths_of(alloc: Global, net: &Net, arguments: Option<u32>) -> Result<Vec<u32>, AllocError>
    ensures { IfOk result (λ depths. depths.items ≡ depths_by arguments net.now) }
{
    net.chans
        .as_slice()
        .iter()
        .map(|chan| depth_by(arguments, chan.kind, chan.depth))
        .collect(alloc)
}

fn depth_by(arguments: Option<u32>, kind: Kind, depth: u32) -> u32
    ensures { result ≡ depth_by arguments kind depth }
{
    match arguments {
        None => depth.max(1),
        Some(replaced) => match kind {
            Kind::Input | Kind::Output => depth.max(1),
            Kind::Inner => replaced.max(1),
        },
    }
}
