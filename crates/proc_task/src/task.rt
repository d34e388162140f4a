ghost use Rattle.std.specs.Prelude.{◌≡◌, ◌<◌, ◌≤◌, ◌+◌, suc, true, false, length, slice_get, Some, IfOk, OnOk, OnErr, MatchBool};
ghost use Rattle.net_core.specs.declared.event.Event.TheVariants as event;
ghost use Rattle.net_core.specs.Behavior.{chan_at};
ghost use Rattle.net_core.specs.Cuts.{Proc};
ghost use Rattle.net_core.specs.Keeps.{IsNothing};
ghost use Rattle.net_core.specs.Outcomes.{stall_for};
ghost use Rattle.chan_queue.specs.Streams.Moves.{sent_first, received_first};
ghost use Rattle.proc_task.specs.Moving.{IsTask, IsNewTask, IsBefore, IsHeldAt, Waits, IsFurther, IsSameTask, IsSameButOutlet, IsSameButInlet, IsSameButPorts, MeetAt, HasMetAt, IsAtSiteIn, HasSiteOn, end_at, position_of};

use crate::port::{Inlet, Outlet, inlet_on, meet, outlet_on};
use crate::runtime::Runtime;
use chan_queue::Streams;
use net_core::{Activation, Event, ProcEnd, Site, Stall};
use std::alloc::{AllocError, Global};
use std::sync::Wait;
use task_queue::Numbered;
use task_queue::round::Steps;
use xb_bits::Bits;
use xb_value::Value;

/// A proc that moves from thread to thread: where it stands, what went over its channels, and its rights to them.
#[derive(Drop)]
pub struct Task<S, H> {
    runtime: H,
    number: u32,
    sites: Vec<Site>,
    indices: Vec<u32>,
    state: Value,
    got: Vec<Bits>,
    done: u32,
    ends: u32,
    count: u64,
    outlets: Vec<Outlet<S>>,
    inlets: Vec<Inlet<S>>,
}

/// Where a task's proc stands in the end, and what went over its channels.
#[derive(Drop)]
pub struct Ended<S> {
    pub end: ProcEnd,
    pub outlets: Vec<Outlet<S>>,
    pub inlets: Vec<Inlet<S>>,
}

impl<S: Streams, H: Runtime<S>> Numbered<H> for Task<S, H> {
    ghost number_of = { λ task. task.number };

    ghost run_of = { λ task. task.runtime };

    ghost fact = { λ task. IsTask (H.run task.runtime) (H.lines task.runtime) task };

    fn number(&self) -> u32 {
        self.number
    }
}

impl<S: Streams, H: Runtime<S>> Steps<H> for Task<S, H> {
    ghost moves = { λ old new made. new.count ≡ old.count + made };

    ghost waits = { λ task. Waits (H.run task.runtime) task };

    fn make_events<R: Wait>(
        &mut self,
        rt: &R,
        alloc: Global,
        most: u32,
    ) -> Result<u32, AllocError> {
        self.advance(rt, alloc, most)
    }
}

impl<S: Streams, H: Runtime<S>> Task<S, H> {
    /// A proc that has made no event, with one outlet or inlet for each end of a channel that has a site, and the index
    /// of its outlet or inlet for each site.
    pub fn new(
        alloc: Global,
        runtime: H,
        number: u32,
        sites: Vec<Site>,
        state: Value,
        indices: Vec<u32>,
        outlets: Vec<Outlet<S>>,
        inlets: Vec<Inlet<S>>,
    ) -> Task<S, H>
        requires { IsNewTask (H.run runtime) (H.lines runtime) number sites.items state indices.items outlets.items inlets.items }
        ensures task { IsTask (H.run runtime) (H.lines runtime) result }
        ensures of { (result.runtime ≡ runtime) × (result.number ≡ number) × (result.count ≡ 0) }
    {
        Task {
            runtime,
            number,
            sites,
            indices,
            state,
            got: Vec::new(alloc),
            done: 0,
            ends: 0,
            count: 0,
            outlets,
            inlets,
        }
    }

    /// An outlet of the task meets the inlet of the same channel of another one.
    pub fn meet(&mut self, outlet: u32, other: &mut Task<S, H>, inlet: u32)
        requires task { IsTask (H.run self.old.runtime) (H.lines self.old.runtime) self.old }
        requires other { IsTask (H.run self.old.runtime) (H.lines self.old.runtime) other.old }
        requires ends { MeetAt self.old.outlets.items outlet other.old.inlets.items inlet }
        ensures task { IsTask (H.run self.new.runtime) (H.lines self.new.runtime) self.new }
        ensures other { IsTask (H.run self.new.runtime) (H.lines self.new.runtime) other.new }
        ensures same { IsSameButOutlet outlet self.old self.new × IsSameButInlet inlet other.old other.new }
        ensures met { HasMetAt (H.run self.new.runtime) self.new.outlets.items outlet other.new.inlets.items inlet }
    {
        meet(
            &self.runtime,
            &mut self.outlets[outlet as usize],
            &mut other.inlets[inlet as usize],
        );
    }

    /// An outlet of the task meets its own inlet of the same channel.
    pub fn meet_self(&mut self, outlet: u32, inlet: u32)
        requires task { IsTask (H.run self.old.runtime) (H.lines self.old.runtime) self.old }
        requires ends { MeetAt self.old.outlets.items outlet self.old.inlets.items inlet }
        ensures task { IsTask (H.run self.new.runtime) (H.lines self.new.runtime) self.new }
        ensures same { IsSameButPorts outlet inlet self.old self.new }
        ensures met { HasMetAt (H.run self.new.runtime) self.new.outlets.items outlet self.new.inlets.items inlet }
    {
        meet(
            &self.runtime,
            &mut self.outlets[outlet as usize],
            &mut self.inlets[inlet as usize],
        );
    }

    /// Where the task stands, and what went over its channels.
    ///
    /// Unless the proc is done it asks the body once, which works the open activation out from its first step.
    pub fn finish(self, alloc: Global) -> Result<Ended<S>, AllocError>
        requires { IsTask (H.run self.runtime) (H.lines self.runtime) self }
        ensures { IfOk result (λ ended. (proc : Proc) → slice_get (H.run self.runtime).procs self.number ≡ Some proc →
            (ended.end ≡ end_at (H.run self.runtime) proc (position_of self)) × (ended.outlets.items ≡ self.outlets.items) × (ended.inlets.items ≡ self.inlets.items)) }
    {
        let stall = self.stall(alloc)?;
        let Task {
            state,
            ends,
            outlets,
            inlets,
            ..
        } = self;
        let end = ProcEnd { state, ends, stall };
        Ok(Ended {
            end,
            outlets,
            inlets,
        })
    }

    /// Where it stands, and what it waits for.
    ///
    /// Unless the proc is done it asks the body once, which works the open activation out from its first step.
    pub fn end(&self, alloc: Global) -> Result<ProcEnd, AllocError>
        requires { IsTask (H.run self.now.runtime) (H.lines self.now.runtime) self.now }
        ensures { IfOk result (λ end. (proc : Proc) → slice_get (H.run self.now.runtime).procs self.now.number ≡ Some proc →
            end ≡ end_at (H.run self.now.runtime) proc (position_of self.now)) }
    {
        let stall = self.stall(alloc)?;
        let state = self.state.copy(alloc)?;
        Ok(ProcEnd {
            state,
            ends: self.ends,
            stall,
        })
    }

    /// The words that it sent on a channel of one of its sites.
    pub fn words_on(&self, chan: u32) -> &[Bits]
        requires { IsTask (H.run self.now.runtime) (H.lines self.now.runtime) self.now }
        ensures { (proc : Proc) → slice_get (H.run self.now.runtime).procs self.now.number ≡ Some proc → HasSiteOn proc chan true →
            result.now ≡ sent_first (H.run self.now.runtime) self.now.number proc self.now.count chan }
    {
        match outlet_on(self.outlets.as_slice(), chan) {
            Some(outlet) => outlet.words.as_slice(),
            None => &[],
        }
    }

    /// How many words it received from a channel of one of its sites.
    pub fn received_on(&self, chan: u32) -> u64
        requires { IsTask (H.run self.now.runtime) (H.lines self.now.runtime) self.now }
        ensures { (proc : Proc) → slice_get (H.run self.now.runtime).procs self.now.number ≡ Some proc → HasSiteOn proc chan false →
            result ≡ received_first (H.run self.now.runtime) self.now.number proc self.now.count chan }
    {
        match inlet_on(self.inlets.as_slice(), chan) {
            Some(inlet) => inlet.received,
            None => 0,
        }
    }

    /// What it waits for, unless it is done.
    fn stall(&self, alloc: Global) -> Result<Option<Stall>, AllocError>
        requires { IsTask (H.run self.now.runtime) (H.lines self.now.runtime) self.now }
        ensures { IfOk result (λ stall. (proc : Proc) → slice_get (H.run self.now.runtime).procs self.now.number ≡ Some proc →
            stall ≡ (end_at (H.run self.now.runtime) proc (position_of self.now)).stall) }
    {
        if self.ends >= self.runtime.activations() {
            return Ok(None);
        }
        let event = self.runtime.next(
            alloc,
            &mut Activation::new(alloc),
            self.number,
            &self.state,
            self.got.as_slice(),
            self.done,
        )?;
        Ok(self.stall_at(&event))
    }

    /// What it waits for where this event comes next.
    fn stall_at(&self, event: &Event) -> Option<Stall>
        requires { IsAtSiteIn self.now.sites.items event.now }
        ensures { result ≡ stall_for self.now.sites.items self.now.ends event.now }
    {
        let activation = self.ends;
        match event {
            Event::Recv(site) => Some(Stall {
                activation,
                sends: false,
                chan: self.chan_at(*site),
            }),
            Event::Send(site, _) => Some(Stall {
                activation,
                sends: true,
                chan: self.chan_at(*site),
            }),
            Event::End(_) => None,
        }
    }

    /// The channel of a site.
    fn chan_at(&self, site: u32) -> u32
        requires { site < length self.now.sites.items }
        ensures { result ≡ chan_at self.now.sites.items site }
    {
        self.sites[site as usize].chan
    }

    /// Makes events until `most` are made, the proc is done, or the next event has no word or no room.
    ///
    /// It asks the body once for each event that it makes, and once for one that waits. The body works each step of an
    /// activation out at most once. What an earlier call worked out of the open activation isn't kept.
    pub fn advance<R: Wait>(&mut self, rt: &R, alloc: Global, most: u32) -> Result<u32, AllocError>
        requires { IsTask (H.run self.old.runtime) (H.lines self.old.runtime) self.old }
        ensures task { IsTask (H.run self.new.runtime) (H.lines self.new.runtime) self.new }
        ensures same { IsSameTask self.old self.new }
        ensures made { IfOk result (λ made. (made ≤ most) × (self.new.count ≡ self.old.count + made)) }
        ensures fewer { IfOk result (λ made. made < most → Waits (H.run self.new.runtime) self.new) }
        ensures err { OnErr result (self.old.count ≤ self.new.count) }
    {
        let mut kept = Activation::new(alloc);
        for made in 0..most {
            if !self.step(rt, alloc, &mut kept)? {
                return Ok(made);
            }
        }
        Ok(most)
    }

    /// Makes the next event, if the proc isn't done and there is a word, or room.
    ///
    /// `kept` is what was worked out of the activation in which the proc stands, and is still right behind the event and
    /// where memory is wanting.
    fn step<R: Wait>(
        &mut self,
        rt: &R,
        alloc: Global,
        kept: &mut Activation,
    ) -> Result<bool, AllocError>
        requires task { IsTask (H.run self.old.runtime) (H.lines self.old.runtime) self.old }
        requires keeps { H.keeps self.old.runtime self.old.number kept.old self.old.state self.old.got.items self.old.done }
        ensures task { IsTask (H.run self.new.runtime) (H.lines self.new.runtime) self.new }
        ensures same { IsSameTask self.old self.new }
        ensures made { IfOk result (λ made. MatchBool made (self.new.count ≡ suc self.old.count)
            ((self.new.count ≡ self.old.count) × Waits (H.run self.new.runtime) self.new)) }
        ensures err { OnErr result (self.new.count ≡ self.old.count) }
        ensures keeps { H.keeps self.new.runtime self.new.number kept.new self.new.state self.new.got.items self.new.done }
    {
        if self.ends >= self.runtime.activations() {
            return Ok(false);
        }
        let event = self.runtime.next(
            alloc,
            kept,
            self.number,
            &self.state,
            self.got.as_slice(),
            self.done,
        )?;
        match event {
            Event::Recv(site) => self.try_receive(rt, site),
            Event::Send(site, word) => self.try_send(rt, site, word),
            Event::End(state) => {
                self.end_with(state, kept);
                Ok(true)
            }
        }
    }

    /// Receives at a site, if there is a word.
    fn try_receive<R: Wait>(&mut self, rt: &R, site: u32) -> Result<bool, AllocError>
        requires task { IsTask (H.run self.old.runtime) (H.lines self.old.runtime) self.old }
        requires next { IsBefore (H.run self.old.runtime) self.old (event.Recv site) }
        ensures task { IsTask (H.run self.new.runtime) (H.lines self.new.runtime) self.new }
        ensures same { IsSameTask self.old self.new }
        ensures further { IsFurther self.old self.new }
        ensures made { IfOk result (λ made. MatchBool made (self.new.count ≡ suc self.old.count)
            ((self.new.count ≡ self.old.count) × Waits (H.run self.new.runtime) self.new)) }
        ensures err { OnErr result (self.new.count ≡ self.old.count) }
    {
        self.got.reserve(1)?;
        let place = self.indices[site as usize] as usize;
        match self.inlets[place].take(rt, &self.runtime) {
            Some(word) => {
                self.got.push_reserved(word);
                self.done = site + 1;
                self.count += 1;
                Ok(true)
            }
            None => Ok(false),
        }
    }

    /// Sends a word at a site, if there is room.
    fn try_send<R: Wait>(&mut self, rt: &R, site: u32, word: Bits) -> Result<bool, AllocError>
        requires task { IsTask (H.run self.old.runtime) (H.lines self.old.runtime) self.old }
        requires next { IsBefore (H.run self.old.runtime) self.old (event.Send site word) }
        ensures task { IsTask (H.run self.new.runtime) (H.lines self.new.runtime) self.new }
        ensures same { IsSameTask self.old self.new }
        ensures further { IsFurther self.old self.new }
        ensures made { IfOk result (λ made. MatchBool made (self.new.count ≡ suc self.old.count)
            ((self.new.count ≡ self.old.count) × Waits (H.run self.new.runtime) self.new)) }
        ensures err { OnErr result (self.new.count ≡ self.old.count) }
    {
        let place = self.indices[site as usize] as usize;
        if self.outlets[place].put(rt, &self.runtime, word)? {
            self.done = site + 1;
            self.count += 1;
            Ok(true)
        } else {
            Ok(false)
        }
    }

    /// The activation ends with a state, and the next one begins, of which nothing is kept.
    fn end_with(&mut self, state: Value, kept: &mut Activation)
        requires task { IsTask (H.run self.old.runtime) (H.lines self.old.runtime) self.old }
        requires next { IsBefore (H.run self.old.runtime) self.old (event.End state) }
        ensures task { IsTask (H.run self.new.runtime) (H.lines self.new.runtime) self.new }
        ensures same { IsSameTask self.old self.new }
        ensures made { self.new.count ≡ suc self.old.count }
        ensures kept { IsNothing kept.new }
    {
        self.state = state;
        self.got.clear();
        self.done = 0;
        self.ends += 1;
        self.count += 1;
        kept.clear();
    }
}
