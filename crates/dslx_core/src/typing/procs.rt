//! Instances of procs whose text is well-typed: what they do is well-typed.
ghost use Rattle.std.specs.Prelude.{◌≡◌, List, Some};
ghost use Rattle.dslx_tree.specs.declared.process.Proc.{Proc};
ghost use Rattle.dslx_meaning.specs.Activation.{state_type_of};
ghost use Rattle.dslx_meaning.specs.declared.ty.DslxType.{DslxType};
ghost use Rattle.dslx_meaning.specs.declared.value.DslxValue.{DslxValue};
ghost use Rattle.dslx_meaning.specs.Rules.TypeEnvs.{GlobalEnv};
ghost use Rattle.dslx_meaning.specs.Rules.ProcRules.{proc_type_env};
ghost use Rattle.dslx_core.specs.Typing.Typed.Complete.{IsComplete};
ghost use Rattle.dslx_core.specs.Typing.Typed.Numbers.{AllOwn};
ghost use Rattle.dslx_core.specs.Typing.Complete.HasValue.{AreTyped, IsWellTypedFound};
ghost use Rattle.dslx_core.specs.Typing.Activities.Members.{IsWellTypedNext};
ghost use Rattle.dslx_core.specs.Typing.Complete.Acts.{acts_found};
ghost use Rattle.dslx_core.specs.Typing.Procs.WordsOfEnds.{WordsAreValues};

/// Where the global environment has all items, an instance of a proc whose text outside its `config` is well-typed, and whose
/// parametrics have values of their own types, has members whose words have the types that they denote, and states of the type that
/// the text gives them; and its `next` is well-typed, so that its activations come to their end or wait for a word (`crate::typing::activities`).
pub fn well_typed_procs_have_well_typed_nexts()
    ensures { (known : GlobalEnv) → IsComplete known → AreTyped known → (p : Proc) (parametric_args : List DslxValue) → AllOwn known.items.type_named parametric_args
        → IsWellTypedFound known (acts_found known p parametric_args) → WordsAreValues (proc_type_env known p parametric_args) p.members
        → (t : DslxType) → state_type_of known.items p parametric_args ≡ Some t → IsWellTypedNext known p parametric_args t }
{}
