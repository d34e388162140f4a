//! What holds of packages that mean the same, each the contract of a function without a body.

ghost use Rattle.std.specs.Prelude.{◌≡◌, ℕ, List};
ghost use Rattle.xb_bits.specs.Word.{Word};
ghost use Rattle.xb_value.specs.declared.value.Value.{Value};
ghost use Rattle.net_core.specs.declared.net.Net.{Net};
ghost use Rattle.net_core.specs.Behavior.{Behavior, IsOpen, next_event};
ghost use Rattle.ir_tree.specs.declared.package.Package.{Package};
ghost use Rattle.ir_tree.specs.SameBehavior.{SameActivations, IsDenotedBy, SameBehavior};

/// Each package means the same as itself; which of two is named first does not count; and what two mean the same as a third,
/// a network too, they mean the same.
pub fn same_behavior_is_an_equivalence()
    ensures itself { (p : Package) → SameBehavior p p }
    ensures either_way { (p q : Package) → SameBehavior p q → SameBehavior q p }
    ensures through { (net : Net) (behaviors : List Behavior) (p q : Package) →
        IsDenotedBy net behaviors p → SameBehavior p q → IsDenotedBy net behaviors q }
{}

/// Where two procs do the same, an activation that can stand somewhere in the one can stand there in the other, and the next
/// event is the same.
pub fn same_procs_come_to_the_same_events()
    ensures stands { (a b : Behavior) (s : Value) (got : List Word) (done : ℕ) →
        SameActivations a b → IsOpen a s got done → IsOpen b s got done }
    ensures event { (a b : Behavior) (s : Value) (got : List Word) (done : ℕ) →
        SameActivations a b → IsOpen a s got done → next_event a s got done ≡ next_event b s got done }
{}
