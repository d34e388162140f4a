ghost use Rattle.std.specs.Prelude.{◌≡◌, ◌∷◌, ◌++◌, [], suc, length, Some, MatchBool, IfOk, IfErr, OnErr, MatchOption, slice_get};
ghost use Rattle.net_core.specs.Cuts.{words_at, final_cut};
ghost use Rattle.proc_task.specs.Ports.{IsOutlet, IsInlet, IsNextOn, SentOne, ReceivedOne, MayPut, MayTake, IsFull, IsDry, told_out, told_in, AreEnds, HaveMet, IsOutletOn, NoOutletOn, IsInletOn, NoInletOn};

use crate::runtime::Runtime;
use chan_queue::{RecvPass, SendPass, Streams};
use std::alloc::AllocError;
use std::sync::Wait;
use xb_bits::Bits;

/// What a task sends on a channel: the words so far, and where another proc receives them, the right to send there.
#[derive(Drop)]
pub struct Outlet<S> {
    pub chan: u32,
    pub words: Vec<Bits>,
    pub pass: Option<SendPass<S>>,
}

/// What a task receives from a channel: how many words so far, and where another proc sends them, the right to receive
/// there.
#[derive(Drop)]
pub struct Inlet<S> {
    pub chan: u32,
    pub received: u64,
    pub pass: Option<RecvPass<S>>,
}

impl<S: Streams> Outlet<S> {
    /// Sends a word, which is kept, unless the channel is full. Where memory is wanting nothing was sent.
    pub(crate) fn put<H: Runtime<S>, R: Wait>(
        &mut self,
        rt: &R,
        runtime: &H,
        word: Bits,
    ) -> Result<bool, AllocError>
        requires outlet { IsOutlet (H.run runtime.now) (H.lines runtime.now) self.old }
        requires word { MayPut (H.run runtime.now) self.old word }
        ensures outlet { IsOutlet (H.run runtime.now) (H.lines runtime.now) self.new }
        ensures told { told_out self.new ≡ told_out self.old }
        ensures put { IfOk result (λ landed. MatchBool landed
            (IsNextOn (H.run runtime.now) self.old word × (self.new.words.items ≡ self.old.words.items ++ word ∷ []))
            ((self.new.words.items ≡ self.old.words.items) × IsFull self.new)) }
        ensures err { OnErr result (self.new.words.items ≡ self.old.words.items) }
    {
        self.words.reserve(1)?;
        let landed = self.send(rt, runtime, word);
        if landed {
            self.words.push_reserved(word);
        }
        Ok(landed)
    }

    /// Sends a word, unless the channel is full.
    fn send<H: Runtime<S>, R: Wait>(&mut self, rt: &R, runtime: &H, word: Bits) -> bool
        requires outlet { IsOutlet (H.run runtime.now) (H.lines runtime.now) self.old }
        requires word { MayPut (H.run runtime.now) self.old word }
        ensures words { self.new.words ≡ self.old.words }
        ensures told { told_out self.new ≡ told_out self.old }
        ensures sent { MatchBool result
            (IsNextOn (H.run runtime.now) self.old word × SentOne (H.run runtime.now) (H.lines runtime.now) self.new)
            (IsOutlet (H.run runtime.now) (H.lines runtime.now) self.new × IsFull self.new) }
    {
        match &mut self.pass {
            None => true,
            Some(pass) => runtime.line(self.chan).send(rt, pass, word).is_ok(),
        }
    }
}

impl<S: Streams> Inlet<S> {
    /// Receives a word, unless there is none.
    pub(crate) fn take<H: Runtime<S>, R: Wait>(&mut self, rt: &R, runtime: &H) -> Option<Bits>
        requires inlet { IsInlet (H.run runtime.now) (H.lines runtime.now) self.old }
        requires word { MayTake (H.run runtime.now) self.old }
        ensures inlet { IsInlet (H.run runtime.now) (H.lines runtime.now) self.new }
        ensures told { told_in self.new ≡ told_in self.old }
        ensures taken { MatchOption result
            ((self.new.received ≡ self.old.received) × IsDry (H.run runtime.now) self.new)
            (λ word. (self.new.received ≡ suc self.old.received)
            × (slice_get (words_at (H.run runtime.now) (final_cut (H.run runtime.now)) self.old.chan) self.old.received ≡ Some word)) }
    {
        let word = self.receive(rt, runtime)?;
        self.received += 1;
        Some(word)
    }

    /// Receives a word, which isn't counted yet.
    fn receive<H: Runtime<S>, R: Wait>(&mut self, rt: &R, runtime: &H) -> Option<Bits>
        requires inlet { IsInlet (H.run runtime.now) (H.lines runtime.now) self.old }
        requires word { MayTake (H.run runtime.now) self.old }
        ensures same { self.new.received ≡ self.old.received }
        ensures told { told_in self.new ≡ told_in self.old }
        ensures taken { MatchOption result
            (IsInlet (H.run runtime.now) (H.lines runtime.now) self.new × IsDry (H.run runtime.now) self.new)
            (λ word. ReceivedOne (H.run runtime.now) (H.lines runtime.now) self.new
            × (slice_get (words_at (H.run runtime.now) (final_cut (H.run runtime.now)) self.old.chan) self.old.received ≡ Some word)) }
    {
        match &mut self.pass {
            None => runtime.input_word(self.chan, self.received),
            Some(pass) => runtime.line(self.chan).recv(rt, pass),
        }
    }
}

/// The two ends of a channel tell each other how many words they sent and received.
pub(crate) fn meet<S: Streams, H: Runtime<S>>(
    runtime: &H,
    outlet: &mut Outlet<S>,
    inlet: &mut Inlet<S>,
)
    requires outlet { IsOutlet (H.run runtime.now) (H.lines runtime.now) outlet.old }
    requires inlet { IsInlet (H.run runtime.now) (H.lines runtime.now) inlet.old }
    requires ends { AreEnds outlet.old inlet.old }
    ensures outlet { IsOutlet (H.run runtime.now) (H.lines runtime.now) outlet.new × (outlet.new.chan ≡ outlet.old.chan) × (outlet.new.words ≡ outlet.old.words) }
    ensures inlet { IsInlet (H.run runtime.now) (H.lines runtime.now) inlet.new × (inlet.new.chan ≡ inlet.old.chan) × (inlet.new.received ≡ inlet.old.received) }
    ensures met { HaveMet (H.run runtime.now) outlet.new inlet.new }
    ensures ends { AreEnds outlet.new inlet.new }
{
    let chan = outlet.chan;
    match (outlet.pass.take(), inlet.pass.take()) {
        (Some(sender), Some(receiver)) => {
            let (sender, receiver) = runtime.line(chan).meet(sender, receiver);
            outlet.pass = Some(sender);
            inlet.pass = Some(receiver);
        }
        _ => unreachable!(),
    }
}

/// The outlet of a channel.
pub(crate) fn outlet_on<S>(outlets: &[Outlet<S>], chan: u32) -> Option<&Outlet<S>>
    ensures { MatchOption result (NoOutletOn outlets.now chan) (λ outlet. IsOutletOn outlets.now chan outlet.now) }
{
    for outlet in outlets {
        if outlet.chan == chan {
            return Some(outlet);
        }
    }
    None
}

/// The inlet of a channel.
pub(crate) fn inlet_on<S>(inlets: &[Inlet<S>], chan: u32) -> Option<&Inlet<S>>
    ensures { MatchOption result (NoInletOn inlets.now chan) (λ inlet. IsInletOn inlets.now chan inlet.now) }
{
    for inlet in inlets {
        if inlet.chan == chan {
            return Some(inlet);
        }
    }
    None
}
