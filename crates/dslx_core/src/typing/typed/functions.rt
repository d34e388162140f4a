ghost use Rattle.std.specs.Prelude.{◌≡◌, [], ℕ, List, Option, false, map, Some};
ghost use Rattle.dslx_tree.specs.declared.item.Field.{Field};
ghost use Rattle.dslx_tree.specs.declared.item.Function.{Function};
ghost use Rattle.dslx_tree.specs.declared.item.Parametric.{Parametric};
ghost use Rattle.dslx_meaning.specs.Environment.{Env, Given, Meanings};
ghost use Rattle.dslx_meaning.specs.Inference.{Inferred};
ghost use Rattle.dslx_meaning.specs.Items.{all_parametric_args, function_value, inferred_from, parametric_args_bound};
ghost use Rattle.dslx_meaning.specs.Meaning.{value_of_block};
ghost use Rattle.dslx_meaning.specs.declared.ty.DslxType.{DslxType};
ghost use Rattle.dslx_meaning.specs.declared.value.DslxValue.{DslxValue};
ghost use Rattle.dslx_meaning.specs.Rules.CallRules.{ParametricArgument, inferred_by, known_before, parametric_args_seen};
ghost use Rattle.dslx_meaning.specs.Rules.ItemRules.{arguments_typed, body_typing, function_type_env};
ghost use Rattle.dslx_meaning.specs.Rules.TypeEnvs.{GlobalEnv, has_broken, with_typed};
ghost use Rattle.dslx_meaning.specs.Rules.NodeRules.{block_pair};
ghost use Rattle.dslx_core.specs.Typing.Typed.Declared.{IsDeclared};
ghost use Rattle.dslx_core.specs.Typing.Typed.Given.{GivesItsType, GivesOf};
ghost use Rattle.dslx_core.specs.Typing.Typed.Numbers.{FitParametricArgs, GivenMean, ParametricsMean};
ghost use Rattle.dslx_core.specs.Typing.Typed.WellTyped.{AreOperandsOf, IsWellTypedEnv, NameNoConstant};

/// An instance of a function whose body breaks no rule and gives a value of its type wherever the type environment is well typed:
/// for operands of the types that are written for its arguments it gives a value of the type of its result.
pub fn functions_give_values_of_their_types()
    ensures { (known : GlobalEnv) (items : Meanings) (f : Function) (parametric_args operands : List DslxValue) (result u : DslxType)
        → IsWellTypedEnv (function_type_env known f parametric_args) (record { items = items; bound = parametric_args_bound [] f.parametrics parametric_args })
        → AreOperandsOf (function_type_env known f parametric_args) f.arguments operands → NameNoConstant (function_type_env known f parametric_args) f.arguments → IsDeclared known.items.type_named result
        → ((block_pair f.body).1 false (with_typed (function_type_env known f parametric_args) (arguments_typed (function_type_env known f parametric_args) [] f.arguments))).ty ≡ Some u
        → has_broken (body_typing false (with_typed (function_type_env known f parametric_args) (arguments_typed (function_type_env known f parametric_args) [] f.arguments)) (Some result) f.body).faults ≡ false
        → ((env : Env) → IsWellTypedEnv (with_typed (function_type_env known f parametric_args) (arguments_typed (function_type_env known f parametric_args) [] f.arguments)) env
        → GivesItsType known.items.type_named ((block_pair f.body).1 false (with_typed (function_type_env known f parametric_args) (arguments_typed (function_type_env known f parametric_args) [] f.arguments))) (value_of_block f.body env))
        → GivesOf known.items.type_named result (function_value items f parametric_args operands) }
{}

/// Parametrics: where typing finds all of them, those that are given, inferred and defaulted, a call finds the same
/// ones, provided that they are of the types of their parameters, and that the types and defaults that typing finds of those are
/// the ones that they denote. Operands that all have types infer the same for both.
pub fn calls_find_their_parametrics()
    ensures found { (known : GlobalEnv) (items : Meanings) (owner : List ℕ)
        → (inferred : List Inferred) (maybe : List (List ℕ)) (before : List (Option DslxValue)) (so_far : List Given) (ps : List Parametric) (gs : List ParametricArgument) (vs ws : List DslxValue)
        → ParametricsMean known items owner before so_far ps → FitParametricArgs known owner before ps ws → GivenMean gs vs → (parametric_args_seen known owner inferred maybe (known_before before) ps gs).values ≡ Some ws → all_parametric_args items inferred so_far ps vs ≡ Some ws }
    ensures inferred { (fs : List Field) (ts : List DslxType) → inferred_by fs (map Some ts) ≡ inferred_from fs ts }
{}
