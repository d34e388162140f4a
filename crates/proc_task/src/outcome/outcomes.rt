ghost use Rattle.std.specs.Prelude.{◌≡◌, ◌<◌, ◌^◌, IfOk, IfSome, IsSome, length, slice_get, get_or, Some, take, []};
ghost use Rattle.base.specs.Lists.Indexed.{indexed};
ghost use Rattle.net_core.specs.declared.net.Chan.{Chan};
ghost use Rattle.net_core.specs.Cuts.{final_cut};
ghost use Rattle.net_core.specs.Outcomes.{stream_of, outcome_of};
ghost use Rattle.proc_task.specs.Outcome.Tasks.{cut_by, AreTasksOf, IsRunOf};
ghost use Rattle.proc_task.specs.Outcome.Inner.Counts.{end_in};

use crate::outcome::stops::{all_fit, all_stay};
use crate::outcome::tasks::{received_on, sent_on, task_of};
use crate::{Runtime, Task};
use chan_queue::Streams;
use net_core::{Inputs, Kind, Net, Outcome, ProcEnd, Stream};
use std::alloc::{AllocError, Global};
use xb_bits::Bits;
use xb_value::Seq;

/// The outcome of the run, if its tasks have come to its end: where the counts show that no proc can go.
///
/// It asks the body of each proc that isn't done once.
pub fn outcome<S: Streams, H: Runtime<S>>(
    alloc: Global,
    runtime: &H,
    net: &Net,
    inputs: &Inputs,
    depths: &[u32],
    tasks: &[Task<S, H>],
) -> Result<Option<Outcome>, AllocError>
    requires tasks { AreTasksOf H.run H.lines runtime.now tasks.now }
    requires run { IsRunOf net.now (H.run runtime.now) }
    requires inputs { ((H.run runtime.now).inputs ≡ inputs.now.words) × (length inputs.now.words ≡ length net.now.chans) }
    requires depths { ((H.run runtime.now).depths ≡ depths.now) × (length depths.now ≡ length net.now.chans) }
    ensures outcome { IfOk result (λ given. IfSome given (λ outcome. outcome ≡ outcome_of (H.run runtime.now) (final_cut (H.run runtime.now)))) }
    ensures over { cut_by (H.run runtime.now) tasks.now ≡ final_cut (H.run runtime.now) → IfOk result (λ given. IsSome given) }
{
    let streams = streams(alloc, runtime, net, inputs.words.as_slice(), tasks)?;
    if !all_fit(net.chans.as_slice(), depths, streams.as_slice()) {
        return Ok(None);
    }
    let ends = ends(alloc, runtime, net, tasks)?;
    let stopped = all_stay(
        net.chans.as_slice(),
        inputs.words.as_slice(),
        depths,
        streams.as_slice(),
        runtime.activations(),
        ends.as_slice(),
    );
    if !stopped {
        return Ok(None);
    }
    Ok(Some(Outcome {
        streams: Seq::from_vec(streams),
        procs: Seq::from_vec(ends),
    }))
}

/// Where each proc stands, and what it waits for.
fn ends<S: Streams, H: Runtime<S>>(
    alloc: Global,
    runtime: &H,
    net: &Net,
    tasks: &[Task<S, H>],
) -> Result<Vec<ProcEnd>, AllocError>
    requires tasks { AreTasksOf H.run H.lines runtime.now tasks.now }
    requires run { IsRunOf net.now (H.run runtime.now) }
    ensures { IfOk result (λ ends. ends.items ≡ indexed (end_in (H.run runtime.now) (cut_by (H.run runtime.now) tasks.now)) 0 (H.run runtime.now).procs) }
{
    let mut ends = Vec::new(alloc);
    for p in 0..net.procs.len() {
        match task_of(tasks, p) {
            Some(task) => ends.push(task.end(alloc)?)?,
            None => unreachable!(),
        }
    }
    Ok(ends)
}

/// What went over each channel.
fn streams<S: Streams, H: Runtime<S>>(
    alloc: Global,
    runtime: &H,
    net: &Net,
    inputs: &[Seq<Bits>],
    tasks: &[Task<S, H>],
) -> Result<Vec<Stream>, AllocError>
    requires tasks { AreTasksOf H.run H.lines runtime.now tasks.now }
    requires run { IsRunOf net.now (H.run runtime.now) }
    requires inputs { ((H.run runtime.now).inputs ≡ inputs.now) × (length inputs.now ≡ length net.now.chans) }
    ensures { IfOk result (λ streams. streams.items ≡ indexed (stream_of (H.run runtime.now) (cut_by (H.run runtime.now) tasks.now)) 0 net.now.chans) }
{
    let mut streams = Vec::new(alloc);
    for (c, chan) in net.chans.as_slice().iter().enumerate() {
        streams.push(stream(
            alloc,
            runtime,
            net,
            inputs[c].as_slice(),
            tasks,
            c as u32,
            chan.kind,
        )?)?;
    }
    Ok(streams)
}

/// What went over a channel.
fn stream<S: Streams, H: Runtime<S>>(
    alloc: Global,
    runtime: &H,
    net: &Net,
    outside: &[Bits],
    tasks: &[Task<S, H>],
    c: u32,
    kind: Kind,
) -> Result<Stream, AllocError>
    requires tasks { AreTasksOf H.run H.lines runtime.now tasks.now }
    requires run { IsRunOf net.now (H.run runtime.now) }
    requires outside { get_or (H.run runtime.now).inputs c [] ≡ outside.now }
    ensures { IfOk result (λ stream. (chan : Chan) → slice_get (H.run runtime.now).chans c ≡ Some chan → chan.kind ≡ kind →
        stream ≡ stream_of (H.run runtime.now) (cut_by (H.run runtime.now) tasks.now) c chan) }
{
    match kind {
        Kind::Input => {
            let received = received_on(runtime, net, tasks, c);
            let words = Seq::from_slice(alloc, first(outside, received))?;
            Ok(Stream { words, received })
        }
        Kind::Output => {
            let words = Seq::from_slice(alloc, sent_on(runtime, net, tasks, c))?;
            Ok(Stream { words, received: 0 })
        }
        Kind::Inner => {
            let received = received_on(runtime, net, tasks, c);
            let words = Seq::from_slice(alloc, sent_on(runtime, net, tasks, c))?;
            Ok(Stream { words, received })
        }
    }
}

/// The first so many words, or all.
fn first(words: &[Bits], count: u64) -> &[Bits]
    ensures { result.now ≡ take count words.now }
{
    if count < words.len() as u64 {
        &words[..count as usize]
    } else {
        words
    }
}
