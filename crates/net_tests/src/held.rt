ghost use Rattle.std.specs.Prelude.{◌≡◌};

use crate::meeting::LOOKS;
use net_core::{Activation, Body, Event};
use std::alloc::{AllocError, Global};
use std::sync::atomic::{AtomicBool, AtomicU32, Ordering};
use std::thread;
use xb_bits::Bits;
use xb_value::Value;

/// What one of two procs was asked.
#[derive(Drop)]
pub(crate) struct Asked {
    /// How often it was asked for an event.
    pub(crate) calls: AtomicU32,
    /// How often behind its first site.
    entered: AtomicU32,
}

impl Asked {
    pub(crate) fn new() -> Asked {
        Asked {
            calls: AtomicU32::new(0),
            entered: AtomicU32::new(0),
        }
    }
}

/// What two procs were asked, and whether one of them waited for the other in vain.
#[derive(Drop)]
pub(crate) struct Pair {
    pub(crate) first: Asked,
    pub(crate) second: Asked,
    pub(crate) missed: AtomicBool,
}

impl Pair {
    pub(crate) fn new() -> Pair {
        Pair {
            first: Asked::new(),
            second: Asked::new(),
            missed: AtomicBool::new(false),
        }
    }

    /// The body of one of the two procs, whose call behind its first site is held until the other one has made as many such
    /// calls.
    pub(crate) fn hold<'a, B>(&'a self, body: &'a B, is_first: bool) -> Held<'a, B>
        ensures { result.body.now ≡ body.entry.now }
    {
        let (mine, other) = if is_first {
            (&self.first, &self.second)
        } else {
            (&self.second, &self.first)
        };
        Held {
            body,
            mine,
            other,
            missed: &self.missed,
        }
    }
}

/// A body whose calls are counted and held.
#[derive(Drop)]
pub(crate) struct Held<'a, B> {
    body: &'a B,
    mine: &'a Asked,
    other: &'a Asked,
    missed: &'a AtomicBool,
}

impl<'a, B> Held<'a, B> {
    /// Waits until the other proc has made as many calls behind its first site.
    fn wait(&self) {
        let before = self.mine.entered.fetch_add(1, Ordering::SeqCst);
        for _ in 0..LOOKS {
            if self.other.entered.load(Ordering::SeqCst) > before {
                return;
            }
            thread::yield_now();
        }
        self.missed.store(true, Ordering::SeqCst);
    }
}

impl<'a, B: Body> Body for Held<'a, B> {
    ghost behavior = { λ held. B.behavior held.body.now };

    ghost keeps = { λ held. B.keeps held.body.now };

    ghost begins = { λ held. B.begins held.body.now };

    ghost stays = { λ held. B.stays held.body.now };

    ghost keeps_types = { λ held. B.keeps_types held.body.now };

    fn next(
        &self,
        alloc: Global,
        kept: &mut Activation,
        state: &Value,
        got: &[Bits],
        done: u32,
    ) -> Result<Event, AllocError> {
        self.mine.calls.fetch_add(1, Ordering::SeqCst);
        if done == 1 {
            self.wait();
        }
        self.body.next(alloc, kept, state, got, done)
    }
}
