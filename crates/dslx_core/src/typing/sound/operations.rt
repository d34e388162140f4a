ghost use Rattle.dslx_meaning.specs.Environment.{Env};
ghost use Rattle.dslx_meaning.specs.Lists.{and_then, where_true, with_both};
ghost use Rattle.dslx_meaning.specs.Meaning.{ExprDen, TypeDen, bound_of, field_of};
ghost use Rattle.dslx_meaning.specs.Operators.{binary_value, cast_value, index_value, part_value, prefix_value, slice_value};
ghost use Rattle.dslx_meaning.specs.Types.{bits_in};
ghost use Rattle.dslx_meaning.specs.Rules.AggregateRules.{field_part_typing, index_typing};
ghost use Rattle.dslx_meaning.specs.Rules.TypeEnvs.{ExprPair, TypeEnv};
ghost use Rattle.dslx_meaning.specs.Rules.Typings.{TypeExprTyping};
ghost use Rattle.dslx_meaning.specs.Rules.OperatorRules.{binary_typing, cast_typing, part_typing, prefix_typing, slice_typing};
ghost use Rattle.dslx_core.specs.Typing.Sound.Sound.{ExprGives, HasTypedValue, TypeHasDen};
ghost use Rattle.dslx_tree.specs.declared.ident.Ident.{Ident};
ghost use Rattle.dslx_tree.specs.declared.operator.Binary.{Binary};
ghost use Rattle.dslx_tree.specs.declared.operator.Prefix.{Prefix};
ghost use Rattle.dslx_core.specs.Typing.Typed.Complete.{IsWellTypedPart};
ghost use Rattle.dslx_core.specs.Typing.Typed.WellTyped.{IsWellTypedEnv, types_at};
ghost use Rattle.std.specs.Prelude.{not};
ghost use Rattle.xb_span.specs.declared.span.Span.{Span};

/// Operators and casts, and what takes values apart: elements of arrays, slices and parts of bits, and fields.
pub fn operators_have_values_of_their_types()
    ensures binary { (span : Span) (context : TypeEnv) (env : Env) (o : Binary) (l r : ExprPair) (x y : ExprDen) → ExprGives l x → ExprGives r y → IsWellTypedEnv context env → IsWellTypedPart context.known (binary_typing span context o l r)
        → HasTypedValue (types_at context) (binary_typing span context o l r) (with_both (x.value env) (y.value env) (binary_value o)) }
    ensures prefix { (span : Span) (context : TypeEnv) (env : Env) (o : Prefix) (e : ExprPair) (x : ExprDen) → ExprGives e x → IsWellTypedEnv context env → IsWellTypedPart context.known (prefix_typing span context e)
        → HasTypedValue (types_at context) (prefix_typing span context e) (and_then (x.value env) (prefix_value o)) }
    ensures cast { (span : Span) (context : TypeEnv) (env : Env) (e : ExprPair) (j : TypeExprTyping) (x : ExprDen) (f : TypeDen) → ExprGives e x → TypeHasDen j f → IsWellTypedEnv context env → IsWellTypedPart context.known (cast_typing span context e (j context))
        → HasTypedValue (types_at context) (cast_typing span context e (j context)) (with_both (f env) (x.value env) cast_value) }
    ensures index { (span : Span) (context : TypeEnv) (env : Env) (e i : ExprPair) (x y : ExprDen) → ExprGives e x → ExprGives i y → IsWellTypedEnv context env → IsWellTypedPart context.known (index_typing span context e i)
        → HasTypedValue (types_at context) (index_typing span context e i) (with_both (x.value env) (y.value env) index_value) }
    ensures part { (span : Span) (context : TypeEnv) (env : Env) (e i : ExprPair) (j : TypeExprTyping) (x y : ExprDen) (f : TypeDen) → ExprGives e x → ExprGives i y → TypeHasDen j f → IsWellTypedEnv context env
        → IsWellTypedPart context.known (part_typing span context e i (j context))
        → HasTypedValue (types_at context) (part_typing span context e i (j context))
        (with_both (x.value env) (y.value env) (λ v k. and_then (and_then (f env) bits_in) (λ kind. where_true (not kind.signed) (part_value v k kind.width)))) }
    ensures slice { (span : Span) (context : TypeEnv) (env : Env) (e a c : ExprPair) (x y z : ExprDen) → ExprGives e x → ExprGives a y → ExprGives c z → IsWellTypedEnv context env → IsWellTypedPart context.known (slice_typing span context e a c)
        → HasTypedValue (types_at context) (slice_typing span context e a c) (and_then (x.value env) (λ v. with_both (bound_of y env) (bound_of z env) (slice_value v))) }
    ensures field { (span : Span) (context : TypeEnv) (env : Env) (e : ExprPair) (name : Ident) (x : ExprDen) → ExprGives e x → IsWellTypedEnv context env → IsWellTypedPart context.known (field_part_typing span context e name)
        → HasTypedValue (types_at context) (field_part_typing span context e name) (and_then (x.value env) (λ v. field_of v name.name)) }
{}
