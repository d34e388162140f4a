ghost use Rattle.std.specs.Prelude.{◌≡◌, IfOk, IsTrue, ◌↔◌};
ghost use Rattle.net_core.specs.Behavior.{IsOpen, next_event};
ghost use Rattle.net_samples.specs.Samples.{number_of, last_number, is_on, count_from, event_at, state_after};

use crate::sample::{Port, Sample, Source, Step, When};
use net_core::{Activation, Body, Event};
use std::alloc::{AllocError, Global};
use xb_bits::Bits;
use xb_value::{Value, at};

/// The number of a state.
fn number_of(state: &Value) -> u128
    ensures { result ≡ number_of state.now }
{
    match state {
        Value::Bits(bits) => bits.value(),
        _ => 0,
    }
}

/// The number of the last word, 0 if there is none.
fn last_number(got: &[Bits]) -> u128
    ensures { result ≡ last_number got.now }
{
    match at(got, got.len().saturating_sub(1)) {
        Some(word) => word.value(),
        None => 0,
    }
}

impl When {
    fn is_on(self, number: u128) -> bool
        ensures { result ≡ is_on self number }
    {
        match self {
            When::Always => true,
            When::Even => number % 2 == 0,
            When::Odd => number % 2 == 1,
        }
    }
}

impl Source {
    fn number(self, state: u128, last: u128) -> u128
        ensures { result ≡ count_from self state last }
    {
        match self {
            Source::State => state,
            Source::Last => last,
        }
    }
}

impl Port {
    /// What the port does where it is on.
    fn event(self, site: u32, state: u128, last: u128) -> Event
        ensures { result ≡ event_at self site state last }
    {
        if self.site.sends {
            Event::Send(site, Bits::new(8, self.source.number(state, last) % 256))
        } else {
            Event::Recv(site)
        }
    }
}

impl Step {
    fn state_after(self, state: u128, last: u128) -> Value
        ensures { result ≡ state_after self state last }
    {
        match self {
            Step::Stay => Value::Bits(Bits::new(1, state % 2)),
            Step::Count(source) => Value::Bits(Bits::new(
                8,
                (source.number(state, last) % 256 + 1) % 256,
            )),
            Step::Flip => Value::Bits(Bits::new(1, (state % 2 + 1) % 2)),
        }
    }
}

impl Body for Sample {
    ghost use Rattle.net_samples.specs.Behaviors.{behavior_of};
    ghost use Rattle.net_samples.specs.Inner.Keeps.{sample_keeps_types};

    ghost behavior = { behavior_of };

    ghost keeps = { λ _ _ _ _ _. Unit {0} };

    ghost begins = { λ _ _ _ _ _ _. tt };

    ghost stays = { λ _ _ _ _ _ _ _ _ _. tt };

    ghost keeps_types = { sample_keeps_types };

    /// An event is cheap, so nothing is kept.

    fn next(
        &self,
        _alloc: Global,
        _kept: &mut Activation,
        state: &Value,
        got: &[Bits],
        done: u32,
    ) -> Result<Event, AllocError> {
        let number = number_of(state);
        let last = last_number(got);
        let ports = self.ports.as_slice();
        for i in done as usize..ports.len() {
            let port = ports[i];
            if port.when.is_on(number) {
                return Ok(port.event(i as u32, number, last));
            }
        }
        Ok(Event::End(self.step.state_after(number, last)))
    }
}
