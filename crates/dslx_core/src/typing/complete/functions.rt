ghost use Rattle.dslx_core.specs.Typing.Complete.HasValue.{AreTyped, InstanceHasValue, IsWellTypedFound, ParametricHasValue};
ghost use Rattle.dslx_meaning.specs.declared.value.DslxValue.{DslxValue};
ghost use Rattle.dslx_meaning.specs.Rules.ItemRules.{function_seen};
ghost use Rattle.dslx_meaning.specs.Rules.TypeEnvs.{GlobalEnv};
ghost use Rattle.dslx_tree.specs.declared.item.Function.{Function};
ghost use Rattle.dslx_tree.specs.declared.item.Parametric.{Parametric};
ghost use Rattle.dslx_core.specs.Typing.Typed.Complete.{IsComplete};
ghost use Rattle.dslx_core.specs.Typing.Typed.Numbers.{AllOwn, FitParametricArgs};
ghost use Rattle.std.specs.Prelude.{List, Option, ℕ};

/// A parametric of any function: typing finds its type and its default where they are well-typed, and they are those that
/// it denotes. An instance whose text is well-typed gives values of the type of its result, where its parametrics
/// have values of their own types, as those have that fit.
pub fn functions_are_known()
    ensures parametric { (known : GlobalEnv) → IsComplete known → AreTyped known → (owner : List ℕ) (p : Parametric) → ParametricHasValue known owner p }
    ensures instance { (known : GlobalEnv) → IsComplete known → AreTyped known → (f : Function) (parametric_args : List DslxValue) → AllOwn known.items.type_named parametric_args
        → IsWellTypedFound known (function_seen known f parametric_args).found → InstanceHasValue known f parametric_args }
    ensures fits { (known : GlobalEnv) (owner : List ℕ) (before : List (Option DslxValue)) (ps : List Parametric) (parametric_args : List DslxValue) → FitParametricArgs known owner before ps parametric_args → AllOwn known.items.type_named parametric_args }
{}
