ghost use Rattle.std.specs.Prelude.{◌≡◌, ◌≤◌, ◌<◌, ◌^◌, IfOk, length};
ghost use Rattle.net_core.specs.Cuts.{final_cut};
ghost use Rattle.net_core.specs.Outcomes.{outcome_of};
ghost use Rattle.chan_queue.specs.Streams.Moves.{IsTyped};
ghost use Rattle.proc_task.specs.Outcome.Tasks.{IsRunOf};
ghost use Rattle.proc_runner.specs.Inner.Started.{AreRunTasks};

use chan_queue::Streams;
use net_core::{Inputs, Net, Outcome};
use proc_task::outcome::outcome;
use proc_task::{Runtime, Task};
use std::alloc::{AllocError, Global};
use std::sync::Wait;
use std::thread::Threads;
use task_queue::round::round;
use xb_io::Gate;

/// Goes on by rounds of the workers, until a round makes no event and the counts show that no proc can go.
pub(crate) fn run_to_end<
    S: Streams + Send + Sync,
    H: Runtime<S> + Send + Sync,
    R: Threads + Wait + Sync,
    G: Gate + Sync,
>(
    rt: &R,
    alloc: Global,
    runtime: &H,
    net: &Net,
    inputs: &Inputs,
    depths: &[u32],
    mut tasks: Vec<Task<S, H>>,
    workers: u32,
    gate: &G,
) -> Result<Outcome, AllocError>
    requires typed { IsTyped (H.run runtime.now) }
    requires run { IsRunOf net.now (H.run runtime.now) }
    requires inputs { ((H.run runtime.now).inputs ≡ inputs.now.words) × (length inputs.now.words ≡ length net.now.chans) }
    requires depths { ((H.run runtime.now).depths ≡ depths.now) × (length depths.now ≡ length net.now.chans) }
    requires tasks { AreRunTasks H.run H.lines runtime.now (length (H.run runtime.now).procs) tasks.items }
    requires few { length (H.run runtime.now).procs < 2 ^ 32 }
    requires workers { (1 ≤ workers) × (workers ≤ 16) }
    ensures { IfOk result (λ outcome. outcome ≡ outcome_of (H.run runtime.now) (final_cut (H.run runtime.now))) }
{
    for _ in rt.forever() {
        let over = round(rt, alloc, *runtime, tasks, workers, gate)?;
        if !over.moved {
            let tasks = over.tasks.as_slice();
            if let Some(end) = outcome(alloc, runtime, net, inputs, depths, tasks)? {
                return Ok(end);
            }
        }
        tasks = over.tasks;
    }
    unreachable!()
}
