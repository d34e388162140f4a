ghost use Rattle.std.specs.Prelude.{◌≡◌, ◌≤◌, ◌++◌, ℕ, List, Option, Some, IfOk, get_or, slice_get, []};
ghost use Rattle.xb_bits.specs.Word.{Word};
ghost use Rattle.chan_queue.specs.declared.queue.ChanQueue.{ChanQueue};
ghost use Rattle.net_core.specs.Behavior.{IsOpen, next_event};
ghost use Rattle.net_core.specs.Cuts.{Proc, Run};
ghost use Rattle.net_core.specs.Keeps.{IsNothing};

use chan_queue::{ChanQueue, Streams};
use net_core::{Activation, Event};
use std::alloc::{AllocError, Global};
use xb_bits::Bits;
use xb_value::Value;

/// What all tasks of a run share: a reference to the run, its bodies and the queues of its channels.
pub trait Runtime<S: Streams>: Copy + Drop {
    ghost use Rattle.xb_value.specs.declared.value.Value.{Value};
    ghost use Rattle.net_core.specs.declared.activation.Activation.{Activation};

    ghost run: { Self → Run };

    /// The queue of each channel that has one.
    ghost lines: { Self → List (Option (ChanQueue S)) };

    /// What is kept is right for an activation of the proc with this number, which began in this state, received these words
    /// and is past this many sites.
    ghost keeps: { Self → ℕ → Activation → Value → List Word → ℕ → Type 0 };

    /// How many activations each proc may end.
    fn activations(&self) -> u32
        ensures { result ≡ (run self.now).activations };

    /// The word with an index that the outside sends on a channel.
    fn input_word(&self, chan: u32, place: u64) -> Option<Bits>
        ensures { result ≡ slice_get (get_or (run self.now).inputs chan []) place };

    /// The queue of a channel.
    fn line(&self, chan: u32) -> &ChanQueue<S>
        requires { (queue : ChanQueue S) × (slice_get (lines self.now) chan ≡ Some (Some queue)) }
        ensures { slice_get (lines self.now) chan ≡ Some (Some result.now) };

    /// The next event of a proc, which stands there. What was kept isn't worked out again, and what is worked out is kept.
    fn next(
        &self,
        alloc: Global,
        kept: &mut Activation,
        number: u32,
        state: &Value,
        got: &[Bits],
        done: u32,
    ) -> Result<Event, AllocError>
        requires stands { (proc : Proc) × (slice_get (run self.now).procs number ≡ Some proc) × IsOpen proc.behavior state.now got.now done }
        requires keeps { keeps self.now number kept.old state.now got.now done }
        ensures event { IfOk result (λ event. (proc : Proc) → slice_get (run self.now).procs number ≡ Some proc →
            event ≡ next_event proc.behavior state.now got.now done) }
        ensures keeps { keeps self.now number kept.new state.now got.now done };

    /// Where nothing is worked out, nothing is wrong.
    ghost begins: { (runtime : Self) (number : ℕ) (kept : Activation) (state : Value) (got : List Word) (done : ℕ) → IsNothing kept →
        keeps runtime number kept state got done };

    /// What is kept stays right while the activation goes on.
    ghost stays: { (runtime : Self) (number : ℕ) (kept : Activation) (state : Value) (got more : List Word) (done later : ℕ) → done ≤ later →
        keeps runtime number kept state got done → keeps runtime number kept state (got ++ more) later };
}
