ghost use Rattle.dslx_meaning.specs.Environment.{bind};
ghost use Rattle.dslx_meaning.specs.Lists.{and_then};
ghost use Rattle.dslx_meaning.specs.Meaning.{ValueDen, PatternDen, all_names, fit_each, fit_value};
ghost use Rattle.dslx_meaning.specs.Types.{bool_type};
ghost use Rattle.dslx_meaning.specs.Values.{bool_value, elements_of};
ghost use Rattle.dslx_meaning.specs.Rules.TypeEnvs.{unlimited};
ghost use Rattle.dslx_meaning.specs.Rules.Typings.{PatternPair, TypeExprTyping};
ghost use Rattle.dslx_meaning.specs.Rules.NameRules.{member_typing};
ghost use Rattle.dslx_meaning.specs.Rules.PatternRules.{is_there, name_pattern, nothing_bound, one_value, part_types, parts_typing, tuple_pattern};
ghost use Rattle.dslx_core.specs.Typing.Sound.Sound.{EachPatternGives, PartGives, PatternGives};
ghost use Rattle.dslx_tree.specs.declared.ident.Ident.{Ident};
ghost use Rattle.std.specs.Prelude.{Bool, List, Some, [], if◌then◌else◌, length, true, ℕ, ◌∷◌};
ghost use Rattle.xb_span.specs.declared.span.Span.{Span};

/// Patterns, and what comes to an arm of a `match`.
pub fn patterns_keep_places_typed()
    ensures wild { PatternGives (λ may_fail context t names locals. record (nothing_bound names locals) { size = 1 }) (record { names = []; fits = λ place v env. Some env }) }
    ensures truth { (span : Span) (b : Bool)
        → PatternGives (λ may_fail context t names locals. one_value span may_fail t names locals (unlimited (Some bool_type) [] [] (Some 1)) true) (record { names = []; fits = λ place v env. fit_value (Some (bool_value b)) v env }) }
    ensures number { (span : Span) (j : TypeExprTyping) (value : ValueDen) → PartGives j value
        → PatternGives (λ may_fail context t names locals. one_value span may_fail t names locals (j context) (is_there (j context).ty)) (record { names = []; fits = λ place v env. fit_value (value place) v env }) }
    ensures member { (span : Span) (e a : Ident)
        → PatternGives (λ may_fail context t names locals. one_value span may_fail t names locals (member_typing context e a) (is_there (context.known.items.member e.name a.name)))
        (record { names = []; fits = λ place v env. fit_value (env.items.member e.name a.name) v env }) }
    ensures name { (span : Span) (name : List ℕ)
        → PatternGives (λ may_fail context t names locals. name_pattern span may_fail context t names locals name (context.known.items.is_constant name))
        (record { names = name ∷ []; fits = λ place v env. if env.items.is_constant name then fit_value (env.items.constant name) v env else Some (bind name v env) }) }
    ensures tuple { (span : Span) (ps : List PatternPair) (ms : List PatternDen) → EachPatternGives ps ms
        → PatternGives (λ may_fail context t names locals. tuple_pattern span t (part_types (length ps) t) (parts_typing may_fail context ps (part_types (length ps) t) names locals))
        (record { names = all_names ms; fits = λ place v env. and_then (elements_of v) (λ vs. fit_each place ms vs env) }) }
{}
