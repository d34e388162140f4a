ghost use Rattle.std.specs.Prelude.{◌≡◌, true, false, Option, Some};
ghost use Rattle.xb_span.specs.declared.span.Span.{Span};
ghost use Rattle.dslx_meaning.specs.Environment.{Env};
ghost use Rattle.dslx_meaning.specs.Lists.{and_then, with_both};
ghost use Rattle.dslx_meaning.specs.Meaning.{ValueDen, PatternDen, fits_in_scope, loop_over};
ghost use Rattle.dslx_meaning.specs.Types.{same_type};
ghost use Rattle.dslx_meaning.specs.Values.{bits_of};
ghost use Rattle.dslx_meaning.specs.declared.ty.DslxType.{DslxType};
ghost use Rattle.dslx_meaning.specs.declared.value.DslxValue.{DslxValue};
ghost use Rattle.dslx_meaning.specs.Rules.ControlRules.{LoopSeen, loop_with};
ghost use Rattle.dslx_meaning.specs.Rules.TypeEnvs.{TypeEnv, Judgement, has_broken, with_typed};
ghost use Rattle.dslx_meaning.specs.Rules.Typings.{PatternPair};
ghost use Rattle.dslx_meaning.specs.Rules.PatternRules.{pattern_alone};
ghost use Rattle.dslx_core.specs.Typing.Typed.Declared.{Declarations, IsDeclared};
ghost use Rattle.dslx_core.specs.Typing.Typed.Given.{GivesItsType, TurnGives};
ghost use Rattle.dslx_core.specs.Typing.Typed.WellTyped.{IsWellTypedEnv, PatternKeeps, turn_seen, types_at};

/// `for`: its turns give what is accumulated its type again, by its patterns and its body, and so the loop gives a value of
/// that type.
pub fn loops_give_values_of_their_types()
    ensures turns { (context : TypeEnv) (k t u : DslxType) (index acc : PatternPair) (im am : PatternDen) (j : Judgement) (body : ValueDen) (env : Env)
        → PatternKeeps index.1 im.fits → PatternKeeps acc.1 am.fits → IsDeclared (types_at context) k → IsDeclared (types_at context) t
        → has_broken (pattern_alone false context (Some k) index).faults ≡ false → has_broken (turn_seen context k t index acc).faults ≡ false
        → j.ty ≡ Some u → same_type t u ≡ true
        → ((inner : Env) → IsWellTypedEnv (with_typed context (turn_seen context k t index acc).locals) inner → GivesItsType (types_at context) j (body inner))
        → IsWellTypedEnv context env → TurnGives k t (λ i a. and_then (fits_in_scope im i env) (λ inner. and_then (fits_in_scope am a inner) body)) }
    ensures whole { (types : Declarations) (span body_span : Span) (l : LoopSeen) (x y z : Option DslxValue) (turn : DslxValue → DslxValue → Option DslxValue)
        → GivesItsType types l.from.judgement x → GivesItsType types l.to.judgement y → GivesItsType types l.start z
        → ((k t u : DslxType) → l.from.judgement.ty ≡ Some k → l.start.ty ≡ Some t → l.body.ty ≡ Some u → same_type t u ≡ true
        → has_broken l.index.faults ≡ false → has_broken l.acc.faults ≡ false → IsDeclared types k → IsDeclared types t → TurnGives k t turn)
        → GivesItsType types (loop_with span body_span l)
        (and_then z (λ s. with_both (and_then x bits_of) (and_then y bits_of) (loop_over turn s))) }
{}
