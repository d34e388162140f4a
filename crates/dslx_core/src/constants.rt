//! That constants and members of enums have values of their own types.
ghost use Rattle.dslx_tree.specs.declared.item.Module.{Module};
ghost use Rattle.dslx_meaning.specs.Items.{meanings_of};
ghost use Rattle.dslx_core.specs.Typing.Laws.Recursion.{HasNoCycle};
ghost use Rattle.dslx_core.specs.Typing.GlobalEnv.WellTypedParts.{EachItemWellTyped};
ghost use Rattle.dslx_core.specs.Lowering.Instances.{ItemsAreOwn};

/// Where no item reaches itself, and nothing is wrong with any constant, alias, struct or enum, each constant and each member of an
/// enum that has a value has one of its own type.
pub fn items_are_own()
    ensures { (m : Module) → HasNoCycle m → EachItemWellTyped m → ItemsAreOwn (meanings_of m) }
{
    crate::typing::known::all_items_are_known();
    crate::typing::denotation::global_env_is_sound();
    crate::typing::laws::recursion_ends();
}
