ghost use Rattle.std.specs.Prelude.{◌≡◌, Bool, List, Some, []};
ghost use Rattle.dslx_core.specs.Lowering.CoreScopes.{BodyEnv};
ghost use Rattle.dslx_core.specs.Lowering.Functions.{CoreInstance, Instantiated, LoweredFunction, instances_from, lower_instance, outer_scope};
ghost use Rattle.dslx_core.specs.Lowering.Steps.{LoweredNext, lower_next, member_in};
ghost use Rattle.dslx_core.specs.Typing.Complete.Acts.{acts_found};
ghost use Rattle.dslx_core.specs.Typing.Typed.Numbers.{AllOwn};
ghost use Rattle.dslx_core.specs.Typing.Typed.WellTyped.{IsWellTypedEnv};
ghost use Rattle.dslx_core.specs.Types.Designs.{AreTypedFunctions, WordTypes, no_types};
ghost use Rattle.dslx_core.specs.Types.Typing.{FunctionTypes};
ghost use Rattle.dslx_meaning.specs.Environment.{Env};
ghost use Rattle.dslx_meaning.specs.Items.{parametric_args_bound};
ghost use Rattle.dslx_meaning.specs.Rules.ItemRules.{function_seen, function_type_env};
ghost use Rattle.dslx_meaning.specs.Rules.ProcRules.{proc_type_env};
ghost use Rattle.dslx_meaning.specs.Rules.TypeEnvs.{GlobalEnv, Instance};
ghost use Rattle.dslx_meaning.specs.declared.value.DslxValue.{DslxValue};
ghost use Rattle.dslx_total.specs.Expressions.Beside.{ScopeMatchesEnv};
ghost use Rattle.dslx_total.specs.Expressions.ExprLowering.{IsClean};
ghost use Rattle.dslx_total.specs.Expressions.InstanceLists.{CanLower, EachReachesThoseBefore};
ghost use Rattle.dslx_total.specs.Expressions.NextSteps.{MembersExist};
ghost use Rattle.dslx_total.specs.Expressions.Nexts.{members_type_env};
ghost use Rattle.dslx_tree.specs.declared.item.Function.{Function};
ghost use Rattle.dslx_tree.specs.declared.process.Proc.{Proc};
ghost use Rattle.dslx_total.specs.Typed.Functions.{AreSoundItems, EachSound, FunctionIsTyped, NextIsTyped, WordsOf, functions_of, signatures_of};
ghost use Rattle.dslx_total.specs.Typed.Scopes.{TypedBody};

/// What an instance of a function whose text is well-typed is lowered to has the type of its result over arguments of theirs, where
/// the values that stand in its body are sound and calls give what their types say.
pub fn lowered_instances_are_typed()
    ensures { (here : Instance → Bool) (known : GlobalEnv) (f : Function) (parametric_args : List DslxValue) (core : BodyEnv) (functions : FunctionTypes) → AllOwn known.items.type_named parametric_args
        → IsWellTypedEnv (function_type_env known f parametric_args) (record { items = known.items; bound = parametric_args_bound [] f.parametrics parametric_args })
        → ScopeMatchesEnv here (function_type_env known f parametric_args) (outer_scope core) → TypedBody functions core
        → IsClean here (function_seen known f parametric_args).found.faults (function_seen known f parametric_args).found.reached
        → (l : LoweredFunction) → lower_instance core f ≡ Some l → FunctionIsTyped functions l }
{}

/// Instances of functions whose texts are well-typed, in an order in which each reaches those before it alone: each has its signature,
/// by the signatures of those before it.
pub fn lowered_tables_are_typed()
    ensures { (known : GlobalEnv) → CanLower known → AreSoundItems known.items → (is : List Instantiated) → EachReachesThoseBefore known [] is → EachSound is
        → (table : List CoreInstance) → instances_from known.whole known.items [] is ≡ Some table → AreTypedFunctions 0 no_types (signatures_of table) (functions_of table) }
{}

/// What the `next` of an instance of a proc whose text outside its `config` is well-typed is lowered to begins with a state of its type
/// and ends with one of it, where the words that travel at its members are of their types.
pub fn lowered_nexts_are_typed()
    ensures { (here : Instance → Bool) (known : GlobalEnv) (p : Proc) (parametric_args : List DslxValue) (env : Env) (core : BodyEnv) (functions : FunctionTypes) (words : WordTypes) → AllOwn known.items.type_named parametric_args
        → IsWellTypedEnv (proc_type_env known p parametric_args) env → ScopeMatchesEnv here (proc_type_env known p parametric_args) (outer_scope core) → MembersExist (members_type_env known p parametric_args) (outer_scope core) p.members
        → TypedBody functions core → WordsOf (member_in (outer_scope core) p.members) words
        → IsClean here (acts_found known p parametric_args).faults (acts_found known p parametric_args).reached → (l : LoweredNext) → lower_next core p ≡ Some l → NextIsTyped functions words l }
{}
