ghost use Rattle.std.specs.Prelude.{◌≡◌, ◌≤◌, ◌++◌, ℕ, List, Some, IfOk, get_or, slice_get, []};
ghost use Rattle.xb_bits.specs.Word.{Word};
ghost use Rattle.net_core.specs.Behavior.{IsOpen, next_event};
ghost use Rattle.net_core.specs.Cuts.{Proc, Run};
ghost use Rattle.net_core.specs.Keeps.{IsNothing};

use chan_queue::{ChanQueue, Streams};
use net_core::{Activation, Body, Event, Inputs, Net};
use proc_task::Runtime;
use std::alloc::{AllocError, Global};
use xb_bits::Bits;
use xb_value::Value;

/// A reference to what a run is made of.
pub(crate) trait Running: Streams + Copy {
    ghost use Rattle.xb_value.specs.declared.value.Value.{Value};
    ghost use Rattle.net_core.specs.declared.activation.Activation.{Activation};

    ghost run: { Self → Run };

    /// What is kept is right for an activation of the proc with this number, which began in this state, received these words
    /// and is past this many sites.
    ghost keeps: { Self → ℕ → Activation → Value → List Word → ℕ → Type 0 };

    /// How many activations each proc may end.
    fn activations(&self) -> u32
        ensures { result ≡ (run self.now).activations };

    /// The word with an index that the outside sends on a channel.
    fn input_word(&self, chan: u32, place: u64) -> Option<Bits>
        ensures { result ≡ slice_get (get_or (run self.now).inputs chan []) place };

    /// The next event of a proc, which stands there. What was kept isn't worked out again, and what is worked out is kept.
    fn next(
        &self,
        alloc: Global,
        kept: &mut Activation,
        number: u32,
        state: &Value,
        got: &[Bits],
        done: u32,
    ) -> Result<Event, AllocError>
        requires stands { (proc : Proc) × (slice_get (run self.now).procs number ≡ Some proc) × IsOpen proc.behavior state.now got.now done }
        requires keeps { keeps self.now number kept.old state.now got.now done }
        ensures event { IfOk result (λ event. (proc : Proc) → slice_get (run self.now).procs number ≡ Some proc →
            event ≡ next_event proc.behavior state.now got.now done) }
        ensures keeps { keeps self.now number kept.new state.now got.now done };

    /// Where nothing is worked out, nothing is wrong.
    ghost begins: { (given : Self) (number : ℕ) (kept : Activation) (state : Value) (got : List Word) (done : ℕ) → IsNothing kept →
        keeps given number kept state got done };

    /// What is kept stays right while the activation goes on.
    ghost stays: { (given : Self) (number : ℕ) (kept : Activation) (state : Value) (got more : List Word) (done later : ℕ) → done ≤ later →
        keeps given number kept state got done → keeps given number kept state (got ++ more) later };
}

/// What a run is made of.
#[derive(Drop)]
pub(crate) struct Given<'a, B> {
    pub(crate) net: &'a Net,
    pub(crate) bodies: &'a [B],
    pub(crate) inputs: &'a Inputs,
    pub(crate) n: u32,
    pub(crate) depths: &'a [u32],
}

impl<'a, B: Body> Streams for &'a Given<'a, B> {
    ghost use Rattle.std.specs.Prelude.{map};
    ghost use Rattle.net_core.specs.WellFormed.{run_of};
    ghost use Rattle.chan_queue.specs.Streams.Streams.{stream_in};

    ghost stream = { λ given c. stream_in (run_of given.now.net.now (map B.behavior given.now.bodies.now) given.now.inputs.now.words given.now.n given.now.depths.now) c };
}

impl<'a, B: Body> Running for &'a Given<'a, B> {
    ghost use Rattle.std.specs.Prelude.{map};
    ghost use Rattle.net_core.specs.WellFormed.{run_of};

    ghost run = { λ given. run_of given.now.net.now (map B.behavior given.now.bodies.now) given.now.inputs.now.words given.now.n given.now.depths.now };

    ghost keeps = { λ given number kept state got done. (body : B) → slice_get given.now.bodies.now number ≡ Some body → B.keeps body kept state got done };

    ghost begins = { λ given number kept state got done h body is. B.begins body kept state got done h };

    ghost stays = { λ given number kept state got more done later l h body is. B.stays body kept state got more done later l (h body is) };

    fn activations(&self) -> u32 {
        self.n
    }

    fn input_word(&self, chan: u32, place: u64) -> Option<Bits> {
        match self.inputs.words.get(chan as usize) {
            Some(words) => words.get(place as usize).copied(),
            None => None,
        }
    }

    fn next(
        &self,
        alloc: Global,
        kept: &mut Activation,
        number: u32,
        state: &Value,
        got: &[Bits],
        done: u32,
    ) -> Result<Event, AllocError> {
        match self.bodies.get(number as usize) {
            Some(body) => body.next(alloc, kept, state, got, done),
            None => unreachable!(),
        }
    }
}

/// What a run is made of, and the queues of its channels.
#[derive(Clone, Copy)]
pub(crate) struct RunContext<'h, S> {
    pub(crate) given: S,
    pub(crate) queues: &'h [Option<ChanQueue<S>>],
}

impl<'h, S: Running> Runtime<S> for RunContext<'h, S> {
    ghost run = { λ runtime. S.run runtime.given };

    ghost lines = { λ runtime. runtime.queues.now };

    ghost keeps = { λ runtime. S.keeps runtime.given };

    ghost begins = { λ runtime. S.begins runtime.given };

    ghost stays = { λ runtime. S.stays runtime.given };

    fn activations(&self) -> u32 {
        self.given.activations()
    }

    fn input_word(&self, chan: u32, place: u64) -> Option<Bits> {
        self.given.input_word(chan, place)
    }

    fn line(&self, chan: u32) -> &ChanQueue<S> {
        match &self.queues[chan as usize] {
            Some(line) => line,
            None => unreachable!(),
        }
    }

    fn next(
        &self,
        alloc: Global,
        kept: &mut Activation,
        number: u32,
        state: &Value,
        got: &[Bits],
        done: u32,
    ) -> Result<Event, AllocError> {
        self.given.next(alloc, kept, number, state, got, done)
    }
}
