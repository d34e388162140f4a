//! That the items of an accepted text are well-typed, and the instances that they reach.
ghost use Rattle.std.specs.Prelude.{◌≡◌, ℕ, List, [], Option};
ghost use Rattle.dslx_tree.specs.declared.item.Module.{Module};
ghost use Rattle.dslx_meaning.specs.Items.{meanings_of};
ghost use Rattle.dslx_meaning.specs.Rules.ModuleRules.{faults_of, globals_of};
ghost use Rattle.dslx_core.specs.Typing.Laws.Recursion.{HasNoCycle};
ghost use Rattle.dslx_core.specs.Typing.GlobalEnv.WellTypedParts.{EachItemWellTyped};

/// Where no part of a text breaks a rule or passes a limit, each constant, alias, struct and enum is well-typed, and so is
/// any instance that these reach. Where no item reaches itself either, the global environment has of the text's items what they denote.
pub fn items_of_accepted_texts_are_well_typed()
    ensures well_typed { (m : Module) (top : Option (List ℕ)) → faults_of m top ≡ [] → EachItemWellTyped m }
    ensures denotation { (m : Module) (top : Option (List ℕ)) → HasNoCycle m → faults_of m top ≡ [] → (globals_of m).items ≡ meanings_of m }
{
    crate::typing::typing::instances_reach_one_another();
    crate::typing::denotation::global_env_is_sound();
}
