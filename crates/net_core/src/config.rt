ghost use Rattle.std.specs.Prelude.{◌≡◌, map, length, IfOk};
ghost use Rattle.base.specs.Lists.Indexed.{indexed};
ghost use Rattle.net_core.specs.Inner.Making.{opened_progress, filled_channel, end_with, stream_in};

use crate::activation::Activation;
use crate::body::Body;
use crate::channel::Channel;
use crate::event::Event;
use crate::net::{Chan, Inputs, Net, ProcHead};
use crate::outcome::{Outcome, ProcEnd, Stall, Stream};
use crate::progress::Progress;
use std::alloc::{AllocError, Global};
use xb_bits::Bits;
use xb_value::{Seq, Value};

/// A run at a moment: where each proc stands, and what went over each channel so far.
///
/// It keeps the words of each channel, as the outcome needs them, and counts of the rest, so that a step costs the same
/// however much came before.
#[derive(Drop)]
pub struct Config {
    procs: Vec<Progress>,
    channels: Vec<Channel>,
    activations: u32,
}

/// Each proc before its first activation.
fn opened(alloc: Global, heads: &[ProcHead]) -> Result<Vec<Progress>, AllocError>
    ensures { IfOk result (λ procs. procs.items ≡ map opened_progress heads.now) }
{
    let mut procs = Vec::new(alloc);
    for head in heads {
        procs.push(Progress::open(alloc, head)?)?;
    }
    Ok(procs)
}

/// Each channel with the words that the outside sends, of which none was received.
fn filled(
    alloc: Global,
    chans: &[Chan],
    inputs: &[Seq<Bits>],
    depths: &[u32],
) -> Result<Vec<Channel>, AllocError>
    requires inputs { length inputs.now ≡ length chans.now }
    requires depths { length depths.now ≡ length chans.now }
    ensures { IfOk result (λ channels.
        channels.items ≡ indexed (filled_channel inputs.now depths.now) 0 chans.now) }
{
    let mut channels = Vec::new(alloc);
    for (c, chan) in chans.iter().enumerate() {
        let words = Seq::from_slice(alloc, inputs[c].as_slice())?;
        channels.push(Channel::new(chan.kind, depths[c], words))?;
    }
    Ok(channels)
}

/// Where each proc stands, with what it waits for.
fn ends(
    alloc: Global,
    procs: Vec<Progress>,
    stalls: &[Option<Stall>],
) -> Result<Seq<ProcEnd>, AllocError>
    requires { length stalls.now ≡ length procs.items }
    ensures { IfOk result (λ ends. ends ≡ indexed (end_with stalls.now) 0 procs.items) }
{
    let mut ends = Vec::new(alloc);
    let mut p = 0;
    for progress in procs {
        ends.push(progress.into_end(stalls[p]))?;
        p += 1;
    }
    Ok(Seq::from_vec(ends))
}

/// What went over each channel.
fn streams(alloc: Global, channels: Vec<Channel>) -> Result<Seq<Stream>, AllocError>
    ensures { IfOk result (λ streams. streams ≡ map stream_in channels.items) }
{
    let mut streams = Vec::new(alloc);
    for channel in channels {
        streams.push(channel.into_stream())?;
    }
    Ok(Seq::from_vec(streams))
}

impl Config {
    ghost use Rattle.std.specs.Prelude.{List, ◌≡◌, ◌<◌, ◌≤◌, ◌+◌, ◌^◌, ℕ, IsTrue, OnOk, OnErr, IfOk, length, map, slice_get, Some, MatchBool};
    ghost use Rattle.xb_bits.specs.Word.{Word};
    ghost use Rattle.net_core.specs.declared.net.Site.{Site};
    ghost use Rattle.net_core.specs.declared.progress.Progress.{Progress};
    ghost use Rattle.net_core.specs.Inner.Making.{has_word, has_room, SiteData, IsSiteData};
    ghost use Rattle.net_core.specs.Inner.Making.{IsReceiveMade, IsSendMade, IsEndMade, TriesReceive, TriesSend, IsStandingFor, CanMake, TriesEvent, LeavesKept};
    ghost use Rattle.base.specs.Lists.Indexed.{indexed};
    ghost use Rattle.net_core.specs.Outcomes.{outcome_of, stall_in, behaviors_of};
    ghost use Rattle.net_core.specs.Behavior.{Behavior};
    ghost use Rattle.net_core.specs.Cuts.{Run, Cut, empty_cut};
    ghost use Rattle.net_core.specs.WellFormed.{IsNet, IsInputs, IsDepths, AreBehaviorsOf, EachKeepsTypes, run_of};
    ghost use Rattle.net_core.specs.Machine.{goes, stepped};
    ghost use Rattle.net_core.specs.Keeps.{KeepsFor};
    ghost use Rattle.net_core.specs.Shows.{Shows, IsAskedWith, IsBehaviorOf, WhereAsked, IsRunWith, WhereRun, IsUnchanged, events_left};

    /// The run of a network before its first event, with at most `n` activations of each proc.
    ///
    /// It takes time and memory as the network and the inputs are large.
    pub fn new(
        alloc: Global,
        net: &Net,
        inputs: &Inputs,
        n: u32,
        depths: &[u32],
    ) -> Result<Config, AllocError>
        requires net { IsNet net.now }
        requires inputs { IsInputs net.now inputs.now.words }
        requires depths { IsDepths net.now depths.now }
        ensures { IfOk result (λ config. (behaviors : List Behavior) →
            AreBehaviorsOf net.now behaviors → EachKeepsTypes behaviors →
            Shows (run_of net.now behaviors inputs.now.words n depths.now) empty_cut config) }
    {
        Ok(Config {
            procs: opened(alloc, net.procs.as_slice())?,
            channels: filled(alloc, net.chans.as_slice(), inputs.words.as_slice(), depths)?,
            activations: n,
        })
    }

    /// Whether a step of proc `p`, whose body this is, would make an event.
    pub fn can<B: Body>(&self, alloc: Global, p: u32, body: &B) -> Result<bool, AllocError>
        requires { IsAskedWith self.now p (B.behavior body.now) }
        ensures { IfOk result (λ can. WhereAsked self.now p (B.behavior body.now) (λ run cut. can ≡ goes run cut p)) }
    {
        let progress = &self.procs[p as usize];
        if progress.ends() >= self.activations {
            return Ok(false);
        }
        let event = progress.next(alloc, body, &mut Activation::new(alloc))?;
        Ok(self.can_make(p as usize, &event))
    }

    /// Makes the next event of proc `p`, whose body this is, if it can go, and says whether it did.
    ///
    /// It answers false exactly where the proc is done or its next event waits. After want of memory nothing has
    /// changed. It costs one call of `next`, and no more where much came before. `kept` is what was worked out of the activation
    /// in which the proc stands: while the proc goes on with it, each step of an activation is worked out once.
    pub fn step<B: Body>(
        &mut self,
        alloc: Global,
        p: u32,
        body: &B,
        kept: &mut Activation,
    ) -> Result<bool, AllocError>
        requires asked { IsAskedWith self.old p (B.behavior body.now) }
        requires keeps { KeepsFor (B.keeps body.now kept.old) self.old p }
        ensures ok { IfOk result (λ made. WhereAsked self.old p (B.behavior body.now) (λ run cut.
            (made ≡ goes run cut p) × Shows run (stepped run cut p) self.new)) }
        ensures falls { IfOk result (λ made.
            MatchBool made (events_left self.new < events_left self.old) (IsUnchanged self.old self.new)) }
        ensures err { OnErr result (IsUnchanged self.old self.new) }
        ensures keeps { KeepsFor (B.keeps body.now kept.new) self.new p }
    {
        let progress = &self.procs[p as usize];
        if progress.ends() >= self.activations {
            return Ok(false);
        }
        let event = progress.next(alloc, body, kept)?;
        self.try_event(alloc, p as usize, event, kept)
    }

    /// What the run has come to, with the bodies of its procs in order.
    pub fn outcome<B: Body>(self, alloc: Global, bodies: &[B]) -> Result<Outcome, AllocError>
        requires { IsRunWith self (map B.behavior bodies.now) }
        ensures { IfOk result (λ outcome. WhereRun self (map B.behavior bodies.now) (λ run cut. outcome ≡ outcome_of run cut)) }
    {
        let stalls = self.stalls(alloc, bodies)?;
        let Config {
            procs,
            channels,
            activations: _,
        } = self;
        let procs = ends(alloc, procs, stalls.as_slice())?;
        let streams = streams(alloc, channels)?;
        Ok(Outcome { streams, procs })
    }

    /// What each proc waits for.
    fn stalls<B: Body>(&self, alloc: Global, bodies: &[B]) -> Result<Vec<Option<Stall>>, AllocError>
        requires { IsRunWith self.now (map B.behavior bodies.now) }
        ensures { IfOk result (λ stalls. WhereRun self.now (map B.behavior bodies.now) (λ run cut.
            stalls.items ≡ indexed (stall_in run cut) 0 run.procs)) }
    {
        let mut stalls = Vec::new(alloc);
        for (p, body) in bodies.iter().enumerate() {
            stalls.push(self.stall(alloc, p, body)?)?;
        }
        Ok(stalls)
    }

    /// What a proc waits for, unless it is done.
    fn stall<B: Body>(&self, alloc: Global, p: usize, body: &B) -> Result<Option<Stall>, AllocError>
        requires { IsAskedWith self.now p (B.behavior body.now) }
        ensures { IfOk result (λ stall. (run : Run) (cut : Cut) → Shows run cut self.now →
            (is : IsBehaviorOf run p (B.behavior body.now)) → stall ≡ stall_in run cut p is.0) }
    {
        let progress = &self.procs[p];
        if progress.ends() >= self.activations {
            return Ok(None);
        }
        let event = progress.next(alloc, body, &mut Activation::new(alloc))?;
        Ok(progress.stall_at(&event))
    }

    /// Whether a proc can make this event.
    fn can_make(&self, p: usize, event: &Event) -> bool
        requires { IsStandingFor self.now p event.now }
        ensures { CanMake self.now p event.now result }
    {
        match event {
            Event::Recv(site) => self.has_word_at(p, *site),
            Event::Send(site, _) => self.has_room_at(p, *site),
            Event::End(_) => true,
        }
    }

    /// A proc makes this event, if it can. At the end of an activation nothing is kept of it.
    fn try_event(
        &mut self,
        alloc: Global,
        p: usize,
        event: Event,
        kept: &mut Activation,
    ) -> Result<bool, AllocError>
        requires { IsStandingFor self.old p event }
        ensures ok { IfOk result (λ made. TriesEvent self.old self.new p event made) }
        ensures err { OnErr result (IsUnchanged self.old self.new) }
        ensures kept { LeavesKept event kept.old kept.new }
    {
        match event {
            Event::Recv(site) => self.try_receive(p, site),
            Event::Send(site, word) => self.try_send(p, site, word),
            Event::End(state) => {
                self.end(alloc, p, state);
                kept.clear();
                Ok(true)
            }
        }
    }

    /// There is a word for a proc's site.
    fn has_word_at(&self, p: usize, site: u32) -> bool
        requires { (here : SiteData) × IsSiteData self.now p site here }
        ensures { (here : SiteData) → IsSiteData self.now p site here → result ≡ has_word here.channel }
    {
        let chan = self.chan_of(p, site) as usize;
        self.channels[chan].has_word()
    }

    /// There is room for a word of a proc's site.
    fn has_room_at(&self, p: usize, site: u32) -> bool
        requires { (here : SiteData) × IsSiteData self.now p site here }
        ensures { (here : SiteData) → IsSiteData self.now p site here → result ≡ has_room here.channel }
    {
        let chan = self.chan_of(p, site) as usize;
        self.channels[chan].has_room()
    }

    /// The channel of a proc's site.
    fn chan_of(&self, p: usize, site: u32) -> u32
        requires { (here : SiteData) × IsSiteData self.now p site here }
        ensures { (progress : Progress) (at : Site) → slice_get self.now.procs.items p ≡ Some progress →
            slice_get progress.sites site ≡ Some at → result ≡ at.chan }
    {
        self.procs[p].chan_at(site)
    }

    /// A proc receives the next word of its site's channel.
    fn receive(&mut self, p: usize, site: u32, chan: usize) -> Result<(), AllocError>
        requires { (here : SiteData) × IsSiteData self.old p site here × (here.chan ≡ chan) × IsTrue (has_word here.channel) }
        ensures ok { OnOk result ((here : SiteData) → IsSiteData self.old p site here → here.chan ≡ chan →
            (word : Word) × IsReceiveMade self.old self.new p site here word) }
        ensures err { OnErr result (IsUnchanged self.old self.new) }
    {
        let channel = &mut self.channels[chan];
        self.procs[p].receive(site, channel.next_word())?;
        channel.receive();
        Ok(())
    }

    /// A proc receives at a site, if there is a word.
    fn try_receive(&mut self, p: usize, site: u32) -> Result<bool, AllocError>
        requires { (here : SiteData) × IsSiteData self.old p site here }
        ensures ok { IfOk result (λ made. (here : SiteData) → IsSiteData self.old p site here →
            TriesReceive self.old self.new p site here made) }
        ensures err { OnErr result (IsUnchanged self.old self.new) }
    {
        let chan = self.chan_of(p, site) as usize;
        if !self.channels[chan].has_word() {
            return Ok(false);
        }
        self.receive(p, site, chan)?;
        Ok(true)
    }

    /// A proc sends a word at a site.
    fn send(&mut self, p: usize, site: u32, chan: usize, word: Bits) -> Result<(), AllocError>
        requires { (here : SiteData) × IsSiteData self.old p site here × (here.chan ≡ chan) }
        ensures ok { OnOk result ((here : SiteData) → IsSiteData self.old p site here → here.chan ≡ chan →
            IsSendMade self.old self.new p site here word) }
        ensures err { OnErr result (IsUnchanged self.old self.new) }
    {
        self.channels[chan].send(word)?;
        self.procs[p].send(site);
        Ok(())
    }

    /// A proc sends a word at a site, if there is room.
    fn try_send(&mut self, p: usize, site: u32, word: Bits) -> Result<bool, AllocError>
        requires { (here : SiteData) × IsSiteData self.old p site here }
        ensures ok { IfOk result (λ made. (here : SiteData) → IsSiteData self.old p site here →
            TriesSend self.old self.new p site here word made) }
        ensures err { OnErr result (IsUnchanged self.old self.new) }
    {
        let chan = self.chan_of(p, site) as usize;
        if !self.channels[chan].has_room() {
            return Ok(false);
        }
        self.send(p, site, chan, word)?;
        Ok(true)
    }

    /// An activation of a proc ends with a state, and its next one begins.
    fn end(&mut self, alloc: Global, p: usize, state: Value)
        requires { (progress : Progress) × (slice_get self.old.procs.items p ≡ Some progress) × (progress.ends + 1 < 2 ^ 32) }
        ensures { (progress : Progress) → slice_get self.old.procs.items p ≡ Some progress → IsEndMade self.old self.new p progress state }
    {
        self.procs[p].end(alloc, state);
    }
}
