ghost use Rattle.dslx_meaning.specs.Environment.{Env, value_of_name};
ghost use Rattle.dslx_meaning.specs.Lists.{and_then};
ghost use Rattle.dslx_meaning.specs.Meaning.{TypeDen};
ghost use Rattle.dslx_meaning.specs.Operators.{number_value};
ghost use Rattle.dslx_meaning.specs.Types.{bool_type};
ghost use Rattle.dslx_meaning.specs.Values.{bool_value};
ghost use Rattle.dslx_meaning.specs.declared.value.UntypedLiteral.{UntypedLiteral};
ghost use Rattle.dslx_meaning.specs.Rules.AggregateRules.{number_typing};
ghost use Rattle.dslx_meaning.specs.Rules.TypeEnvs.{TypeEnv, settled};
ghost use Rattle.dslx_meaning.specs.Rules.Typings.{TypeExprTyping};
ghost use Rattle.dslx_meaning.specs.Rules.NameRules.{member_typing, name_typing};
ghost use Rattle.dslx_core.specs.Typing.Sound.Sound.{HasTypedValue, PartGives, TypeHasDen};
ghost use Rattle.dslx_tree.specs.declared.ident.Ident.{Ident};
ghost use Rattle.dslx_core.specs.Typing.Typed.Complete.{IsWellTypedPart};
ghost use Rattle.dslx_core.specs.Typing.Typed.WellTyped.{IsWellTypedEnv, types_at};
ghost use Rattle.std.specs.Prelude.{Bool, List, Some, [], ℕ};
ghost use Rattle.xb_span.specs.declared.span.Span.{Span};

/// Names, members of enums, `true`, `false` and numbers.
pub fn names_have_values_of_their_types()
    ensures name { (span : Span) (context : TypeEnv) (name : List ℕ) (env : Env) → IsWellTypedEnv context env → IsWellTypedPart context.known (name_typing span context name)
        → HasTypedValue (types_at context) (name_typing span context name) (value_of_name name env) }
    ensures member { (context : TypeEnv) (e a : Ident) (env : Env) → IsWellTypedEnv context env → IsWellTypedPart context.known (member_typing context e a)
        → HasTypedValue (types_at context) (member_typing context e a) (env.items.member e.name a.name) }
    ensures truth { (span : Span) (b : Bool) → PartGives (λ context. settled span (Some bool_type) [] [] (Some 1)) (λ env. Some (bool_value b)) }
    ensures number { (span : Span) (j : TypeExprTyping) (f : TypeDen) (number : UntypedLiteral) → TypeHasDen j f → PartGives (λ context. number_typing span (Some (j context)) number) (λ env. and_then (f env) (λ t. number_value t number)) }
{}
