ghost use Rattle.std.specs.Prelude.{◌≡◌, ℕ, List, length, Bool, true, false, Option, Some, if◌then◌else◌};
ghost use Rattle.xb_span.specs.declared.span.Span.{Span};
ghost use Rattle.dslx_meaning.specs.Environment.{Env, bind};
ghost use Rattle.dslx_meaning.specs.Lists.{and_then};
ghost use Rattle.dslx_meaning.specs.Meaning.{PatternDen, fit_each, fit_value};
ghost use Rattle.dslx_meaning.specs.Values.{elements_of};
ghost use Rattle.dslx_meaning.specs.declared.ty.DslxType.{DslxType};
ghost use Rattle.dslx_meaning.specs.declared.value.DslxValue.{DslxValue};
ghost use Rattle.dslx_meaning.specs.Rules.TypeEnvs.{Judgement, TypeEnv, Typed, has_broken, with_typed};
ghost use Rattle.dslx_meaning.specs.Rules.Typings.{PatternPair};
ghost use Rattle.dslx_meaning.specs.Rules.PatternRules.{name_pattern, one_value, part_types, parts_typing, tuple_pattern};
ghost use Rattle.dslx_core.specs.Typing.Typed.WellTyped.{EachKeeps, FitsOrFails, IsWellTypedEnv, PatternKeeps};

/// Patterns that break no rule, against values of their type: they fit, and the type environment behind them is well typed, or
/// they are ones that may fail there: patterns that are one value, names and tuples.
pub fn patterns_keep_names_typed()
    ensures one { (span : Span) (may_fail : Bool) (context : TypeEnv) (t : Option DslxType) (names : List (List ℕ)) (locals : List Typed) (own : Judgement) (known : Bool)
        (env : Env) (w : Option DslxValue) (v : DslxValue)
        → IsWellTypedEnv (with_typed context locals) env → has_broken (one_value span may_fail t names locals own known).faults ≡ false
        → FitsOrFails may_fail context (one_value span may_fail t names locals own known) (fit_value w v env) }
    ensures name { (span : Span) (name : List ℕ)
        → PatternKeeps (λ may_fail context t names locals. name_pattern span may_fail context t names locals name (context.known.items.is_constant name))
        (λ place v env. if env.items.is_constant name then fit_value (env.items.constant name) v env else Some (bind name v env)) }
    ensures tuple { (span : Span) (ps : List PatternPair) (ms : List PatternDen) → EachKeeps ps ms
        → PatternKeeps (λ may_fail context t names locals. tuple_pattern span t (part_types (length ps) t) (parts_typing may_fail context ps (part_types (length ps) t) names locals))
        (λ place v env. and_then (elements_of v) (λ vs. fit_each place ms vs env)) }
{}
