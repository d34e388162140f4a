ghost use Rattle.std.specs.Prelude.{List, ℕ, ◌≡◌, ◌≤◌, ◌++◌, IfOk};
ghost use Rattle.xb_bits.specs.Word.{Word};
ghost use Rattle.net_core.specs.Behavior.{Behavior, IsOpen, KeepsTypes, next_event};
ghost use Rattle.net_core.specs.Keeps.{IsNothing};

use crate::activation::Activation;
use crate::event::Event;
use std::alloc::{AllocError, Global};
use xb_bits::Bits;
use xb_value::Value;

/// What the sites of a proc do. A source text and a package of the intermediate language each give one.
pub trait Body {
    ghost use Rattle.xb_value.specs.declared.value.Value.{Value};
    ghost use Rattle.net_core.specs.declared.activation.Activation.{Activation};

    /// What the proc does at each site and at the end of an activation.
    ghost behavior: { Self → Behavior };

    /// What is kept is right for an activation that began in this state, received these words and is past this many sites.
    ghost keeps: { Self → Activation → Value → List Word → ℕ → Type 0 };

    /// The next event of an activation that began in `state` and is past its first `done` sites, at which it received
    /// the words `got`. What was kept isn't worked out again, and what is worked out is kept.
    fn next(
        &self,
        alloc: Global,
        kept: &mut Activation,
        state: &Value,
        got: &[Bits],
        done: u32,
    ) -> Result<Event, AllocError>
        requires stands { IsOpen (behavior self.now) state.now got.now done }
        requires keeps { keeps self.now kept.old state.now got.now done }
        ensures event { IfOk result (λ event. event ≡ next_event (behavior self.now) state.now got.now done) }
        ensures keeps { keeps self.now kept.new state.now got.now done };

    /// Where nothing is worked out, nothing is wrong.
    ghost begins: { (body : Self) (kept : Activation) (state : Value) (got : List Word) (done : ℕ) → IsNothing kept → keeps body kept state got done };

    /// What is kept stays right while the activation goes on.
    ghost stays: { (body : Self) (kept : Activation) (state : Value) (got more : List Word) (done later : ℕ) → done ≤ later →
        keeps body kept state got done → keeps body kept state (got ++ more) later };

    /// What it sends has the width of the channel, and the next state has the type of the first.
    ghost keeps_types: { (body : Self) → KeepsTypes (behavior body) };
}
