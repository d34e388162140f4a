ghost use Rattle.std.specs.Prelude.{◌≡◌, ◌+◌, ◌<◌, length, map, sum_by, Ok, IfOk};
ghost use Rattle.net_core.specs.Cuts.{final_cut};
ghost use Rattle.net_core.specs.Outcomes.{outcome_of};
ghost use Rattle.net_core.specs.WellFormed.{IsNet, IsInputs, IsDepths, IsOutcome, AreBehaviorsOf, run_of};
ghost use Rattle.net_core.specs.declared.outcome.ProcEnd.{ProcEnd as AnyEnd};
ghost use Rattle.xls_gen.specs.Events.{events_on, events_over, events_told, total_events};

use net_core::{Body, Chan, Inputs, Kind, Net, Outcome, ProcEnd, Stream};
use net_run::run_one;
use std::alloc::{AllocError, Global};

/// Runs a network as [`run_one`] does, and counts the events that its procs make.
///
/// It counts in time linear in the network. More events than a `u64` holds end as a lack of memory does.
pub fn run_counted<B: Body>(
    alloc: Global,
    net: &Net,
    bodies: &[B],
    inputs: &Inputs,
    n: u32,
    depths: &[u32],
) -> Result<(Outcome, u64), AllocError>
    requires net { IsNet net.now }
    requires bodies { AreBehaviorsOf net.now (map B.behavior bodies.now) }
    requires inputs { IsInputs net.now inputs.now.words }
    requires depths { IsDepths net.now depths.now }
    ensures outcome { IfOk result (λ counted.
        let run = run_of net.now (map B.behavior bodies.now) inputs.now.words n depths.now in
        counted.0 ≡ outcome_of run (final_cut run)) }
    ensures fits { IfOk result (λ counted. IsOutcome net.now counted.0) }
    ensures events { IfOk result (λ counted.
        let run = run_of net.now (map B.behavior bodies.now) inputs.now.words n depths.now in
        counted.1 ≡ total_events run (final_cut run)) }
{
    let outcome = run_one(alloc, net, bodies, inputs, n, depths)?;
    let count = count_events(net, &outcome);
    beside(outcome, count)
}

/// How many events an outcome of a network tells of: the receives and sends at its channels, and the ends of activations.
///
/// It takes time linear in the network. More of them than a `u64` holds are answered as a lack of memory is.
pub fn count_events(net: &Net, outcome: &Outcome) -> Result<u64, AllocError>
    requires { length outcome.now.streams ≡ length net.now.chans }
    ensures { IfOk result (λ count. count ≡ events_told net.now.chans outcome.now) }
{
    let moved = count_moved(net.chans.as_slice(), outcome.streams.as_slice())?;
    let ended = count_ended(outcome.procs.as_slice())?;
    added(moved, ended)
}

/// The receives and sends at channels, by the stream of each.
fn count_moved(chans: &[Chan], streams: &[Stream]) -> Result<u64, AllocError>
    requires { length streams.now ≡ length chans.now }
    ensures { IfOk result (λ count. count ≡ events_over chans.now streams.now) }
{
    let mut count = 0;
    'channels: for channel in 0..chans.len() {
        let here = count_at(chans[channel].kind, &streams[channel])?;
        count = added(count, here)?;
    }
    Ok(count)
}

/// The receives and sends at a channel.
fn count_at(kind: Kind, stream: &Stream) -> Result<u64, AllocError>
    ensures { IfOk result (λ count. count ≡ events_on kind stream.now) }
{
    match kind {
        Kind::Input => Ok(stream.received),
        Kind::Output => Ok(stream.words.len() as u64),
        Kind::Inner => added(stream.words.len() as u64, stream.received),
    }
}

/// The ends of activations.
fn count_ended(procs: &[ProcEnd]) -> Result<u64, AllocError>
    ensures { IfOk result (λ count. count ≡ sum_by (λ (stand : AnyEnd). stand.ends) procs.now) }
{
    let mut count = 0;
    'procs: for stand in procs {
        count = added(count, u64::from(stand.ends))?;
    }
    Ok(count)
}

/// The sum of two counts.
fn added(first: u64, second: u64) -> Result<u64, AllocError>
    ensures { IfOk result (λ count. count ≡ first + second) }
{
    match first.checked_add(second) {
        Some(count) => Ok(count),
        None => Err(AllocError),
    }
}

/// A value with a count, if there is one.
fn beside<T: Drop>(value: T, count: Result<u64, AllocError>) -> Result<(T, u64), AllocError>
    ensures value { IfOk result (λ pair. pair.0 ≡ value) }
    ensures count { IfOk result (λ pair. count ≡ Ok pair.1) }
{
    match count {
        Ok(count) => Ok((value, count)),
        Err(error) => Err(error),
    }
}
