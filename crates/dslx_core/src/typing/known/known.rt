ghost use Rattle.dslx_core.specs.Typing.Complete.HasValue.{AreTyped};
ghost use Rattle.dslx_core.specs.Typing.GlobalEnv.WellTypedParts.{EachItemWellTyped};
ghost use Rattle.dslx_meaning.specs.Rules.ModuleRules.{globals_of};
ghost use Rattle.dslx_tree.specs.declared.item.Module.{Module};
ghost use Rattle.dslx_core.specs.Typing.Typed.Complete.{IsComplete};

/// Where each constant, alias, struct and enum is well-typed, the global environment has all items of the text, whatever functions
/// reach themselves or bind the name of a constant: constants and members of enums by values of their types, types by what
/// they name, functions by what their well-typed instances give.
pub fn all_items_are_known()
    ensures complete { (m : Module) → EachItemWellTyped m → IsComplete (globals_of m) }
    ensures typed { (m : Module) → EachItemWellTyped m → AreTyped (globals_of m) }
{}
