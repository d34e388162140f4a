ghost use Rattle.dslx_meaning.specs.Callees.{CallKind};
ghost use Rattle.dslx_meaning.specs.Environment.{Env};
ghost use Rattle.dslx_meaning.specs.Items.{as_function, item_named};
ghost use Rattle.dslx_meaning.specs.Lists.{with_both};
ghost use Rattle.dslx_meaning.specs.Meaning.{ExprDen, call_den, values_of};
ghost use Rattle.dslx_meaning.specs.Rules.CallRules.{builtin_typing, function_call, given_parametric_args, without_parametric_args};
ghost use Rattle.dslx_meaning.specs.Rules.TypeEnvs.{ExprPair, TypeEnv, all_alone};
ghost use Rattle.dslx_meaning.specs.Rules.Typings.{ArgPair};
ghost use Rattle.dslx_core.specs.Typing.Sound.Sound.{EachExprGives, HasTypedValue, IsBuiltin};
ghost use Rattle.dslx_tree.specs.declared.ident.Ident.{Ident};
ghost use Rattle.dslx_core.specs.Typing.Typed.Complete.{IsWellTypedPart};
ghost use Rattle.dslx_core.specs.Typing.Typed.WellTyped.{IsWellTypedEnv, types_at};
ghost use Rattle.std.specs.Prelude.{List, length, map, ℕ, ◌≡◌};
ghost use Rattle.xb_span.specs.declared.span.Span.{Span};

/// Calls of builtins and of functions: all parametrics have values, given, inferred or by default, and the operands are of the types of the arguments.
pub fn calls_have_values_of_their_types()
    ensures builtin { (kind : CallKind) (span : Span) (context : TypeEnv) (env : Env) (name : List ℕ) (as' : List ArgPair) (ns : List ExprDen) (es : List ExprPair) (xs : List ExprDen) → IsBuiltin kind → length as' ≡ length ns
        → EachExprGives es xs → IsWellTypedEnv context env → IsWellTypedPart context.known (without_parametric_args span context as' es (builtin_typing kind span es context))
        → HasTypedValue (types_at context) (without_parametric_args span context as' es (builtin_typing kind span es context)) (with_both (values_of ns env) (values_of xs env) (call_den kind name env)) }
    ensures function { (span : Span) (context : TypeEnv) (env : Env) (name : Ident) (as' : List ArgPair) (ns : List ExprDen) (es : List ExprPair) (xs : List ExprDen) → EachExprGives (map (λ (a : ArgPair). a.1) as') ns → EachExprGives es xs
        → IsWellTypedEnv context env → IsWellTypedPart context.known (function_call span context name (given_parametric_args context as') es (all_alone context es) (as_function (item_named name.name context.known.whole.items)))
        → HasTypedValue (types_at context) (function_call span context name (given_parametric_args context as') es (all_alone context es) (as_function (item_named name.name context.known.whole.items)))
        (with_both (values_of ns env) (values_of xs env) (env.items.call name.name)) }
{}
