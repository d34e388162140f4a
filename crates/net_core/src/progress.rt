use crate::activation::Activation;
use crate::body::Body;
use crate::channel::front;
use crate::event::Event;
use crate::net::{ProcHead, Site};
use crate::outcome::{ProcEnd, Stall};
use std::alloc::{AllocError, Global};
use xb_bits::Bits;
use xb_value::{Seq, Value};

/// Where a proc stands: the state of its open activation, the words that it received there, how many of its sites are
/// past, and how many activations ended.
#[derive(Drop)]
pub(crate) struct Progress {
    sites: Seq<Site>,
    state: Value,
    got: Seq<Bits>,
    done: u32,
    ends: u32,
}

impl Progress {
    ghost use Rattle.std.specs.Prelude.{◌≡◌, ◌<◌, ◌+◌, ◌^◌, ◌++◌, ◌∷◌, [], suc, IfOk, OnOk, OnErr, length};
    ghost use Rattle.net_core.specs.Behavior.{IsOpen, next_event, chan_at};
    ghost use Rattle.net_core.specs.Outcomes.{stall_for};
    ghost use Rattle.net_core.specs.Inner.Making.{opened_progress, IsAtSiteOf};

    /// A proc before its first activation.
    pub(crate) fn open(alloc: Global, head: &ProcHead) -> Result<Progress, AllocError>
        ensures { IfOk result (λ progress. progress ≡ opened_progress head.now) }
    {
        Ok(Progress {
            sites: Seq::from_slice(alloc, head.sites.as_slice())?,
            state: head.init.copy(alloc)?,
            got: Seq::new(alloc),
            done: 0,
            ends: 0,
        })
    }

    /// How many activations ended.
    pub(crate) fn ends(&self) -> u32
        ensures { result ≡ self.now.ends }
    {
        self.ends
    }

    /// The channel of a site.
    pub(crate) fn chan_at(&self, site: u32) -> u32
        requires { site < length self.now.sites }
        ensures { result ≡ chan_at self.now.sites site }
    {
        self.sites.as_slice()[site as usize].chan
    }

    /// The next event, by the proc's body.
    pub(crate) fn next<B: Body>(
        &self,
        alloc: Global,
        body: &B,
        kept: &mut Activation,
    ) -> Result<Event, AllocError>
        requires stands { IsOpen (B.behavior body.now) self.now.state self.now.got self.now.done }
        requires keeps { B.keeps body.now kept.old self.now.state self.now.got self.now.done }
        ensures event { IfOk result (λ event. event ≡ next_event (B.behavior body.now) self.now.state self.now.got self.now.done) }
        ensures keeps { B.keeps body.now kept.new self.now.state self.now.got self.now.done }
    {
        body.next(alloc, kept, &self.state, self.got.as_slice(), self.done)
    }

    /// What the proc waits for where this event comes next.
    pub(crate) fn stall_at(&self, event: &Event) -> Option<Stall>
        requires { IsAtSiteOf self.now event.now }
        ensures { result ≡ stall_for self.now.sites self.now.ends event.now }
    {
        let activation = self.ends;
        match event {
            Event::Recv(site) => Some(Stall {
                activation,
                sends: false,
                chan: self.chan_at(*site),
            }),
            Event::Send(site, _) => Some(Stall {
                activation,
                sends: true,
                chan: self.chan_at(*site),
            }),
            Event::End(_) => None,
        }
    }

    /// A word is received at a site.
    pub(crate) fn receive(&mut self, site: u32, word: Bits) -> Result<(), AllocError>
        requires { site < 2 ^ 30 }
        ensures ok { OnOk result (self.new ≡ record self.old { got = self.old.got ++ word ∷ []; done = suc site }) }
        ensures err { OnErr result (self.new ≡ self.old) }
    {
        self.got.push(word)?;
        self.done = site + 1;
        Ok(())
    }

    /// A word is sent at a site.
    pub(crate) fn send(&mut self, site: u32)
        requires { site < 2 ^ 30 }
        ensures { self.new ≡ record self.old { done = suc site } }
    {
        self.done = site + 1;
    }

    /// The activation ends with a state, and the next one begins. The memory of its words serves those of the next one.
    pub(crate) fn end(&mut self, alloc: Global, state: Value)
        requires { self.old.ends + 1 < 2 ^ 32 }
        ensures { self.new ≡ record self.old { state = state; got = []; done = 0; ends = suc self.old.ends } }
    {
        self.state = state;
        let words = std::mem::replace(&mut self.got, Seq::new(alloc));
        self.got = front(words, 0);
        self.done = 0;
        self.ends += 1;
    }

    /// Where the proc stands, with what it waits for.
    pub(crate) fn into_end(self, stall: Option<Stall>) -> ProcEnd
        ensures { result ≡ record { state = self.state; ends = self.ends; stall = stall } }
    {
        ProcEnd {
            state: self.state,
            ends: self.ends,
            stall,
        }
    }
}
