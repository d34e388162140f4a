ghost use Rattle.std.specs.Prelude.{◌≡◌, ℕ, List, [], Bool, Option, Some};
ghost use Rattle.xb_span.specs.declared.span.Span.{Span};
ghost use Rattle.dslx_tree.specs.declared.ident.Ident.{Ident};
ghost use Rattle.dslx_meaning.specs.Environment.{Env, value_of_name};
ghost use Rattle.dslx_meaning.specs.Lists.{and_then};
ghost use Rattle.dslx_meaning.specs.Operators.{number_value};
ghost use Rattle.dslx_meaning.specs.Types.{bool_type};
ghost use Rattle.dslx_meaning.specs.Values.{bool_value};
ghost use Rattle.dslx_meaning.specs.declared.ty.DslxType.{DslxType};
ghost use Rattle.dslx_meaning.specs.declared.value.UntypedLiteral.{UntypedLiteral};
ghost use Rattle.dslx_meaning.specs.Rules.AggregateRules.{number_typing};
ghost use Rattle.dslx_meaning.specs.Rules.TypeEnvs.{TypeEnv, Judgement, settled};
ghost use Rattle.dslx_meaning.specs.Rules.NameRules.{member_typing, name_typing};
ghost use Rattle.dslx_core.specs.Typing.Typed.Declared.{Declarations, IsDeclared};
ghost use Rattle.dslx_core.specs.Typing.Typed.Given.{GivesItsType};
ghost use Rattle.dslx_core.specs.Typing.Typed.WellTyped.{IsWellTypedEnv, types_at};

/// Names, members of enums, `true` and `false`, and numbers, where the type environment is well typed.
pub fn names_give_values_of_their_types()
    ensures name { (span : Span) (context : TypeEnv) (name : List ℕ) (env : Env) → IsWellTypedEnv context env
        → GivesItsType (types_at context) (name_typing span context name) (value_of_name name env) }
    ensures member { (context : TypeEnv) (e a : Ident) (env : Env) → IsWellTypedEnv context env
        → GivesItsType (types_at context) (member_typing context e a) (env.items.member e.name a.name) }
    ensures truth { (types : Declarations) (span : Span) (b : Bool) → GivesItsType types (settled span (Some bool_type) [] [] (Some 1)) (Some (bool_value b)) }
    ensures number { (types : Declarations) (span : Span) (written : Judgement) (w : Option DslxType) (number : UntypedLiteral)
        → ((t : DslxType) → written.ty ≡ Some t → (w ≡ Some t) × IsDeclared types t)
        → GivesItsType types (number_typing span (Some written) number) (and_then w (λ t. number_value t number)) }
{}
