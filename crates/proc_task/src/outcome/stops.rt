ghost use Rattle.std.specs.Prelude.{◌≡◌, ◌≤◌, ◌+◌, IsTrue, length};
ghost use Rattle.proc_task.specs.Outcome.Inner.Counts.{CountsFit, AllFit, Holds, IsHeldBy, IsStuck, AllStay, words_for};
ghost use Rattle.net_core.specs.declared.net.Kind.TheVariants as kinds;

use net_core::{Chan, Kind, ProcEnd, Stall, Stream};
use xb_bits::Bits;
use xb_value::Seq;

/// The counts of each channel between procs agree.
pub(crate) fn all_fit(chans: &[Chan], depths: &[u32], streams: &[Stream]) -> bool
    requires depths { length depths.now ≡ length chans.now }
    requires streams { length streams.now ≡ length chans.now }
    ensures shown { IsTrue result → AllFit chans.now depths.now streams.now }
    ensures only { AllFit chans.now depths.now streams.now → IsTrue result }
{
    for (c, chan) in chans.iter().enumerate() {
        if !fits(chan.kind, depths[c], &streams[c]) {
            return false;
        }
    }
    true
}

/// What was received from the channel was sent, and what was sent has room, where procs are at both ends.
fn fits(kind: Kind, depth: u32, stream: &Stream) -> bool
    ensures shown { IsTrue result → CountsFit kind depth stream.now }
    ensures only { CountsFit kind depth stream.now → IsTrue result }
{
    let sent = stream.words.len() as u64;
    match kind {
        Kind::Input | Kind::Output => true,
        Kind::Inner => stream.received <= sent && sent - stream.received <= u64::from(depth),
    }
}

/// No proc can go.
pub(crate) fn all_stay(
    chans: &[Chan],
    inputs: &[Seq<Bits>],
    depths: &[u32],
    streams: &[Stream],
    n: u32,
    ends: &[ProcEnd],
) -> bool
    requires inputs { length inputs.now ≡ length chans.now }
    requires depths { length depths.now ≡ length chans.now }
    requires streams { length streams.now ≡ length chans.now }
    ensures shown { IsTrue result → AllStay chans.now inputs.now depths.now streams.now n ends.now }
    ensures only { AllStay chans.now inputs.now depths.now streams.now n ends.now → IsTrue result }
{
    for end in ends {
        if !stays(chans, inputs, depths, streams, n, end) {
            return false;
        }
    }
    true
}

/// A proc can't go: it has made its activations, or it waits for what isn't there.
fn stays(
    chans: &[Chan],
    inputs: &[Seq<Bits>],
    depths: &[u32],
    streams: &[Stream],
    n: u32,
    end: &ProcEnd,
) -> bool
    requires inputs { length inputs.now ≡ length chans.now }
    requires depths { length depths.now ≡ length chans.now }
    requires streams { length streams.now ≡ length chans.now }
    ensures shown { IsTrue result → IsStuck chans.now inputs.now depths.now streams.now n end.now }
    ensures only { IsStuck chans.now inputs.now depths.now streams.now n end.now → IsTrue result }
{
    match &end.stall {
        Some(stall) => is_held(chans, inputs, depths, streams, stall),
        None => n <= end.ends,
    }
}

/// What a proc waits for isn't there.
fn is_held(
    chans: &[Chan],
    inputs: &[Seq<Bits>],
    depths: &[u32],
    streams: &[Stream],
    stall: &Stall,
) -> bool
    requires inputs { length inputs.now ≡ length chans.now }
    requires depths { length depths.now ≡ length chans.now }
    requires streams { length streams.now ≡ length chans.now }
    ensures shown { IsTrue result → IsHeldBy chans.now inputs.now depths.now streams.now stall.now }
    ensures only { IsHeldBy chans.now inputs.now depths.now streams.now stall.now → IsTrue result }
{
    let c = stall.chan as usize;
    if c >= chans.len() {
        return false;
    }
    let outside = inputs[c].len() as u64;
    holds(chans[c].kind, outside, depths[c], &streams[c], stall.sends)
}

/// A proc that waits to send on the channel, or to receive from it, can't.
fn holds(kind: Kind, outside: u64, depth: u32, stream: &Stream, sends: bool) -> bool
    ensures shown { IsTrue result → Holds kind outside depth stream.now sends }
    ensures only { Holds kind outside depth stream.now sends → IsTrue result }
{
    if sends {
        is_full(kind, depth, stream)
    } else {
        is_dry(kind, outside, stream)
    }
}

/// Procs are at both ends of the channel, and there is no room in it.
fn is_full(kind: Kind, depth: u32, stream: &Stream) -> bool
    ensures shown { IsTrue result → (kind ≡ kinds.Inner) × (stream.now.received + depth ≤ length stream.now.words) }
    ensures only { (kind ≡ kinds.Inner) × (stream.now.received + depth ≤ length stream.now.words) → IsTrue result }
{
    let sent = stream.words.len() as u64;
    match kind {
        Kind::Input | Kind::Output => false,
        Kind::Inner => stream.received <= sent && sent - stream.received >= u64::from(depth),
    }
}

/// All words of the channel were received.
fn is_dry(kind: Kind, outside: u64, stream: &Stream) -> bool
    ensures shown { IsTrue result → words_for kind outside stream.now ≤ stream.now.received }
    ensures only { words_for kind outside stream.now ≤ stream.now.received → IsTrue result }
{
    match kind {
        Kind::Input => outside <= stream.received,
        Kind::Output | Kind::Inner => stream.words.len() as u64 <= stream.received,
    }
}
