ghost use Rattle.std.specs.Prelude.{◌≡◌, ◌<◌, ◌^◌, ◌++◌, ◌∷◌, [], ℕ, IfOk, OnOk, length, get_or};
ghost use Rattle.net_core.specs.Cuts.{Run};
ghost use Rattle.chan_queue.specs.Streams.Streams.{stream_in};
ghost use Rattle.proc_runner.specs.Inner.Opened.{IsLine, AreOpened};

use chan_queue::{ChanQueue, RecvPass, SendPass, Streams, make};
use net_core::{Chan, Kind};
use std::alloc::{AllocError, Global};
use std::sync::Wait;

/// The queues of a run's channels, and the rights to send on them and to receive from them. An input and an output have none.
#[derive(Drop)]
pub(crate) struct Channels<S> {
    pub(crate) queues: Vec<Option<ChanQueue<S>>>,
    pub(crate) sends: Vec<Option<SendPass<S>>>,
    pub(crate) recvs: Vec<Option<RecvPass<S>>>,
}

/// The same of one channel.
#[derive(Drop)]
struct Line<S> {
    queue: Option<ChanQueue<S>>,
    send: Option<SendPass<S>>,
    recv: Option<RecvPass<S>>,
}

impl<S: Streams> Channels<S> {
    /// The next channel is opened.
    fn push(&mut self, line: Line<S>) -> Result<(), AllocError>
        ensures queues { OnOk result (self.new.queues.items ≡ self.old.queues.items ++ line.queue ∷ []) }
        ensures sends { OnOk result (self.new.sends.items ≡ self.old.sends.items ++ line.send ∷ []) }
        ensures recvs { OnOk result (self.new.recvs.items ≡ self.old.recvs.items ++ line.recv ∷ []) }
    {
        let Line { queue, send, recv } = line;
        self.queues.push(queue)?;
        self.sends.push(send)?;
        self.recvs.push(recv)?;
        Ok(())
    }
}

/// Opens a queue for each channel between procs.
pub(crate) fn open<S: Streams + Copy, R: Wait>(
    rt: &R,
    alloc: Global,
    given: S,
    chans: &[Chan],
    depths: &[u32],
) -> Result<Channels<S>, AllocError>
    requires few { length chans.now < 2 ^ 32 }
    requires depths { (length depths.now ≡ length chans.now) × ((c : ℕ) → c < length depths.now → 0 < get_or depths.now c 0) }
    ensures { IfOk result (λ made. (run : Run) → run.chans ≡ chans.now → run.depths ≡ depths.now → ((c : ℕ) → S.stream given c ≡ stream_in run c) →
        AreOpened run (length chans.now) made.queues.items made.sends.items made.recvs.items) }
{
    let mut lines = Channels {
        queues: Vec::new(alloc),
        sends: Vec::new(alloc),
        recvs: Vec::new(alloc),
    };
    for (c, chan) in chans.iter().enumerate() {
        let line = open_line(rt, alloc, given, c as u32, chan.kind, depths[c])?;
        lines.push(line)?;
    }
    Ok(lines)
}

/// Opens a queue for a channel, if it is one between procs.
fn open_line<S: Streams, R: Wait>(
    rt: &R,
    alloc: Global,
    given: S,
    c: u32,
    kind: Kind,
    depth: u32,
) -> Result<Line<S>, AllocError>
    requires { 0 < depth }
    ensures { IfOk result (λ line. IsLine kind (S.stream given c) depth line) }
{
    match kind {
        Kind::Input | Kind::Output => Ok(Line {
            queue: None,
            send: None,
            recv: None,
        }),
        Kind::Inner => {
            let (queue, send, recv) = make(rt, alloc, given, c, depth)?;
            Ok(Line {
                queue: Some(queue),
                send: Some(send),
                recv: Some(recv),
            })
        }
    }
}
