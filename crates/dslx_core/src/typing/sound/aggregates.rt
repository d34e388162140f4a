ghost use Rattle.dslx_meaning.specs.Environment.{Env};
ghost use Rattle.dslx_meaning.specs.Lists.{and_then};
ghost use Rattle.dslx_meaning.specs.Meaning.{FieldDen, ExprDen, TypeDen, array_at, rest_of, struct_at, values_of};
ghost use Rattle.dslx_meaning.specs.Operators.{element_value};
ghost use Rattle.dslx_meaning.specs.declared.ty.DslxType.{out-DslxType};
ghost use Rattle.dslx_meaning.specs.declared.value.DslxValue as value;
ghost use Rattle.dslx_meaning.specs.Rules.AggregateRules.{struct_typing, tuple_element_typing, tuple_typing, typed_array, untyped_array};
ghost use Rattle.dslx_meaning.specs.Rules.TypeEnvs.{ExprPair, TypeEnv};
ghost use Rattle.dslx_meaning.specs.Rules.Typings.{FieldSeen, TypeExprTyping};
ghost use Rattle.dslx_core.specs.Typing.Sound.Sound.{EachExprGives, EachFieldGives, ExprGives, ExprGivesIf, HasTypedValue, TypeHasDen};
ghost use Rattle.dslx_tree.specs.declared.ident.Ident.{Ident};
ghost use Rattle.dslx_core.specs.Typing.Typed.Complete.{IsWellTypedPart};
ghost use Rattle.dslx_core.specs.Typing.Typed.WellTyped.{IsWellTypedEnv, types_at};
ghost use Rattle.std.specs.Prelude.{Bool, List, Option, Some, ℕ};
ghost use Rattle.xb_span.specs.declared.span.Span.{Span};

/// Tuples and their elements, arrays with a type and without one, and struct values.
pub fn aggregates_have_values_of_their_types()
    ensures tuple { (span : Span) (context : TypeEnv) (env : Env) (es : List ExprPair) (xs : List ExprDen) → EachExprGives es xs → IsWellTypedEnv context env → IsWellTypedPart context.known (tuple_typing span context es)
        → HasTypedValue (types_at context) (tuple_typing span context es) (and_then (values_of xs env) (λ vs. Some (value.Tuple vs))) }
    ensures element { (span : Span) (context : TypeEnv) (env : Env) (e : ExprPair) (k : ℕ) (x : ExprDen) → ExprGives e x → IsWellTypedEnv context env → IsWellTypedPart context.known (tuple_element_typing span context e k)
        → HasTypedValue (types_at context) (tuple_element_typing span context e k) (and_then (x.value env) (λ v. element_value v k)) }
    ensures untyped { (span : Span) (context : TypeEnv) (env : Env) (es : List ExprPair) (dots : Bool) (xs : List ExprDen) → EachExprGives es xs → IsWellTypedEnv context env → IsWellTypedPart context.known (untyped_array span context es dots)
        → HasTypedValue (types_at context) (untyped_array span context es dots) (and_then (values_of xs env) (λ vs. Some (value.Array vs))) }
    ensures typed { (span : Span) (context : TypeEnv) (env : Env) (j : TypeExprTyping) (f : TypeDen) (es : List ExprPair) (dots : Bool) (xs : List ExprDen) → TypeHasDen j f → EachExprGives es xs → IsWellTypedEnv context env
        → IsWellTypedPart context.known (typed_array span context (j context) es dots)
        → HasTypedValue (types_at context) (typed_array span context (j context) es dots) (and_then (f env) (λ t. array_at env xs dots (out-DslxType t))) }
    ensures whole { (span : Span) (context : TypeEnv) (env : Env) (name : Ident) (fields : List FieldSeen) (ms : List FieldDen) (others : Option ExprPair) (rest : Option ExprDen) → EachFieldGives fields ms → ExprGivesIf others rest
        → IsWellTypedEnv context env → IsWellTypedPart context.known (struct_typing span context name fields others)
        → HasTypedValue (types_at context) (struct_typing span context name fields others) (and_then (env.items.struct_named name.name) (λ t. struct_at env ms (rest_of rest env) (out-DslxType t))) }
{}
