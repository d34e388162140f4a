ghost use Rattle.dslx_meaning.specs.Environment.{Env};
ghost use Rattle.dslx_meaning.specs.Lists.{and_then};
ghost use Rattle.dslx_meaning.specs.Meaning.{ArmDen, ExprDen, match_arms};
ghost use Rattle.dslx_meaning.specs.declared.ty.DslxType.{DslxType};
ghost use Rattle.dslx_meaning.specs.declared.value.DslxValue.{DslxValue};
ghost use Rattle.dslx_meaning.specs.Rules.ControlRules.{arm_typing, arms_faults, arms_reached, match_typing};
ghost use Rattle.dslx_meaning.specs.Rules.TypeEnvs.{ExprPair, TypeEnv};
ghost use Rattle.dslx_meaning.specs.Rules.Typings.{ArmSeen};
ghost use Rattle.dslx_core.specs.Typing.Sound.Sound.{EachArmHasValue, ExprGives, HasTypedValue, NarrowComes, NarrowMatchesCome};
ghost use Rattle.dslx_core.specs.Typing.Typed.Complete.{IsWellTypedPart};
ghost use Rattle.dslx_core.specs.Typing.Typed.Given.{GivesOf};
ghost use Rattle.dslx_core.specs.Typing.Typed.WellTyped.{IsWellTypedEnv, types_at};
ghost use Rattle.std.specs.List.{list_all};
ghost use Rattle.std.specs.Prelude.{List, Some, [], map, true, ◌≡◌};
ghost use Rattle.xb_span.specs.declared.span.Span.{Span};

/// `match`, where values of tuples of at most 8 bits come to an arm, as they do.
pub fn matches_have_values_of_their_types()
    ensures whole { (span : Span) (context : TypeEnv) (env : Env) (e : ExprPair) (x : ExprDen) (arms : List ArmSeen) (ms : List ArmDen) → ExprGives e x → EachArmHasValue arms ms → IsWellTypedEnv context env
        → ((t : DslxType) (v : DslxValue) → arms_faults (map (arm_typing context (Some t)) arms) ≡ [] → list_all context.known.is_sound (arms_reached (map (arm_typing context (Some t)) arms)) ≡ true → GivesOf (types_at context) t (Some v)
        → NarrowComes context env t arms ms v)
        → IsWellTypedPart context.known (match_typing span context e arms) → HasTypedValue (types_at context) (match_typing span context e arms) (and_then (x.value env) (λ v. match_arms ms v env)) }
    ensures narrow { NarrowMatchesCome }
{}
