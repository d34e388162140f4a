ghost use Rattle.std.specs.Prelude.{Bool, List, []};
ghost use Rattle.dslx_core.specs.Lowering.CoreScopes.{BodyEnv};
ghost use Rattle.dslx_core.specs.Lowering.Functions.{Instantiated, lower_instance, outer_scope};
ghost use Rattle.dslx_total.specs.Expressions.Beside.{ScopeMatchesEnv};
ghost use Rattle.dslx_total.specs.Expressions.InstanceLists.{CanLower, EachReachesThoseBefore, HaveTable};
ghost use Rattle.dslx_total.specs.Expressions.Instances.{InstanceLowers};
ghost use Rattle.dslx_total.specs.Expressions.ExprLowering.{IsClean};
ghost use Rattle.dslx_meaning.specs.Items.{parametric_args_bound};
ghost use Rattle.dslx_meaning.specs.declared.value.DslxValue.{DslxValue};
ghost use Rattle.dslx_meaning.specs.Rules.ItemRules.{function_seen, function_type_env};
ghost use Rattle.dslx_meaning.specs.Rules.TypeEnvs.{Instance, GlobalEnv};
ghost use Rattle.dslx_tree.specs.declared.item.Function.{Function};
ghost use Rattle.dslx_core.specs.Typing.Typed.Numbers.{AllOwn};
ghost use Rattle.dslx_core.specs.Typing.Typed.WellTyped.{IsWellTypedEnv};

/// An instance of a function whose text is well-typed: where its parametrics have values of their own types, and calls of
/// all instances that it reaches have a callee with the type of the result, it is lowered to a function of the types that are
/// declared for its arguments and its result.
pub fn lower_total_instance()
    ensures { (here : Instance → Bool) (known : GlobalEnv) (f : Function) (parametric_args : List DslxValue) (core : BodyEnv) → AllOwn known.items.type_named parametric_args
        → IsWellTypedEnv (function_type_env known f parametric_args) (record { items = known.items; bound = parametric_args_bound [] f.parametrics parametric_args })
        → ScopeMatchesEnv here (function_type_env known f parametric_args) (outer_scope core)
        → IsClean here (function_seen known f parametric_args).found.faults (function_seen known f parametric_args).found.reached
        → InstanceLowers known f parametric_args (lower_instance core f) }
{}

/// Instances of functions whose texts are well-typed, in an order in which each reaches those before it alone: all of them
/// are lowered to functions, each of which calls those before it, and where this table is at hand calls of them have a callee.
pub fn lower_total_instances()
    ensures { (known : GlobalEnv) → CanLower known → (is : List Instantiated) → EachReachesThoseBefore known [] is → HaveTable known is }
{}
