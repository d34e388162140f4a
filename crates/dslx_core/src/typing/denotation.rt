//! That the global environment has of items what the items denote.
ghost use Rattle.std.specs.Prelude.{◌≡◌, ℕ, List, true, length};
ghost use Rattle.dslx_tree.specs.declared.item.Module.{Module};
ghost use Rattle.dslx_meaning.specs.Items.{meanings_of};
ghost use Rattle.dslx_meaning.specs.Rules.ModuleRules.{globals_of};
ghost use Rattle.dslx_core.specs.Typing.Laws.Agreement.{ItemMeansOne};
ghost use Rattle.dslx_core.specs.Typing.Laws.Recursion.{HasNoCycle};
ghost use Rattle.dslx_core.specs.Typing.TypingRelations.Closed.{ends_within};
ghost use Rattle.dslx_core.specs.Typing.GlobalEnv.WellTypedParts.{EachItemWellTyped};

/// Where each constant, alias, struct and enum is well-typed, the global environment has
/// of each item from which chains of mentions end what it denotes. Where no item reaches itself, it has that of all: what holds of it
/// holds of the text's denotation.
pub fn global_env_is_sound()
    ensures item { (m : Module) → EachItemWellTyped m → (name : List ℕ) → ends_within m (length m.items) name ≡ true → ItemMeansOne (globals_of m).items (meanings_of m) name }
    ensures whole { (m : Module) → HasNoCycle m → EachItemWellTyped m → (globals_of m).items ≡ meanings_of m }
{
    crate::typing::known::all_items_are_known();
    crate::typing::complete::constants_are_known();
    crate::typing::complete::types_are_known();
    crate::typing::depends::what_is_known_settles();
    crate::typing::laws::recursion_ends();
}
