ghost use Rattle.std.specs.Prelude.{◌≡◌, ◌≤◌, IfOk, map};
ghost use Rattle.net_core.specs.Cuts.{final_cut};
ghost use Rattle.net_core.specs.Outcomes.{outcome_of};
ghost use Rattle.net_core.specs.WellFormed.{IsNet, IsInputs, IsDepths, IsOutcome, AreBehaviorsOf, EachKeepsTypes, run_of};

use crate::given::{Given, RunContext};
use crate::lines::{Channels, open};
use crate::rounds::run_to_end;
use crate::start::{Ends, receivers, senders, start};
use net_core::{Body, Inputs, Net, Outcome};
use net_run::run_one;
use std::alloc::{AllocError, Global};
use std::sync::Wait;
use std::thread::Threads;
use xb_io::Gate;

/// What the bodies send has the widths of their channels, and their states have their types.
fn bodies_keep_types<B: Body>(_bodies: &[B])
    ensures { EachKeepsTypes (map B.behavior _bodies.now) }
{}

/// Runs a network in which each proc makes at most `n` activations, until no proc can go, by 1 to 16 workers.
///
/// The outcome is that of one thread, however many workers there are, whatever the gate does, and in whatever order the
/// threads come to their steps. Each worker has a thread of its own, but one worker alone takes none. That it returns is not
/// claimed: it does where the calls of the queues and the threads do.
///
/// Each time that a worker takes a proc, the body is asked once for each event, and at most once more. It works each step of
/// an activation out at most once in that time.
pub fn run_threads<B: Body + Sync, R: Threads + Wait + Sync, G: Gate + Sync>(
    rt: &R,
    alloc: Global,
    net: &Net,
    bodies: &[B],
    inputs: &Inputs,
    n: u32,
    depths: &[u32],
    workers: u32,
    gate: &G,
) -> Result<Outcome, AllocError>
    requires net { IsNet net.now }
    requires bodies { AreBehaviorsOf net.now (map B.behavior bodies.now) }
    requires inputs { IsInputs net.now inputs.now.words }
    requires depths { IsDepths net.now depths.now }
    requires workers { (1 ≤ workers) × (workers ≤ 16) }
    ensures outcome { IfOk result (λ outcome.
        let run = run_of net.now (map B.behavior bodies.now) inputs.now.words n depths.now in
        outcome ≡ outcome_of run (final_cut run)) }
    ensures fits { IfOk result (λ outcome. IsOutcome net.now outcome) }
{
    if workers == 1 || net.procs.len() == 0 {
        return run_one(alloc, net, bodies, inputs, n, depths);
    }
    bodies_keep_types(bodies);
    let given = Given {
        net,
        bodies,
        inputs,
        n,
        depths,
    };
    let Channels {
        queues,
        sends,
        recvs,
    } = open(rt, alloc, &given, net.chans.as_slice(), depths)?;
    let ends = Ends {
        senders: senders(alloc, net)?,
        receivers: receivers(alloc, net)?,
        sends,
        recvs,
    };
    let runtime = RunContext {
        given: &given,
        queues: queues.as_slice(),
    };
    let tasks = start(alloc, &runtime, net.procs.as_slice(), ends)?;
    run_to_end(
        rt, alloc, &runtime, net, inputs, depths, tasks, workers, gate,
    )
}
