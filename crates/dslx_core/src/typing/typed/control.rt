ghost use Rattle.std.specs.Prelude.{◌≡◌, ◌++◌, ℕ, List, true, false, Option, Some};
ghost use Rattle.xb_span.specs.declared.span.Span.{Span};
ghost use Rattle.dslx_meaning.specs.Environment.{Env};
ghost use Rattle.dslx_meaning.specs.Lists.{and_then, with_both};
ghost use Rattle.dslx_meaning.specs.Meaning.{ArmDen, StmtDen, ExprDen, PatternDen, choose, fits_in_scope, last_den, loop_over, match_arms, statements_den};
ghost use Rattle.dslx_meaning.specs.Operators.{truth};
ghost use Rattle.dslx_meaning.specs.Values.{bits_of};
ghost use Rattle.dslx_meaning.specs.declared.ty.DslxType.{DslxType};
ghost use Rattle.dslx_meaning.specs.declared.value.DslxValue.{DslxValue};
ghost use Rattle.dslx_meaning.specs.Rules.ControlRules.{block_alone, bound_type, if_typing, last_typing, let_with, match_typing, statements_typing};
ghost use Rattle.dslx_meaning.specs.Rules.TypeEnvs.{TypeEnv, Judgement, ExprPair, alone, has_broken, settled, within};
ghost use Rattle.dslx_meaning.specs.Rules.Typings.{ArmSeen, BlockPair, PatternPair, StatementTyping};
ghost use Rattle.dslx_meaning.specs.Rules.OperatorRules.{one_bit_type};
ghost use Rattle.dslx_meaning.specs.Rules.PatternRules.{pattern_alone};
ghost use Rattle.dslx_core.specs.Typing.Typed.Declared.{Declarations};
ghost use Rattle.dslx_core.specs.Typing.Typed.Given.{GivesOf, GivesItsType, TurnGives};
ghost use Rattle.dslx_core.specs.Typing.Typed.WellTyped.{AllKeep, EachArmGives, GoesOnTyped, IsWellTypedEnv, LastGives, PatternKeeps, StatementKeeps, comes_to_an_arm, types_at};

/// `if`.
pub fn branches_give_values_of_their_types()
    ensures { (types : Declarations) (span : Span) (context : TypeEnv) (c : ExprPair) (a : BlockPair) (b : ExprPair) (x y z : Option DslxValue)
        → GivesItsType types (alone context c) x → GivesItsType types (block_alone context a) y → GivesItsType types (alone context b) z
        → GivesItsType types (if_typing span context c a b) (choose (and_then x truth) y z) }
{}

/// Blocks: statements that break no rule leave the type environment well typed, a `let` by its pattern, and the last expression
/// gives the block its value.
pub fn blocks_give_values_of_their_types()
    ensures binding { (context : TypeEnv) (e : ExprPair) (m : ExprDen) (span : Span) (written : Option Judgement) (pattern : PatternPair) (pm : PatternDen) (t : DslxType)
        → ((env : Env) → IsWellTypedEnv context env → GivesItsType (types_at context) (within context e) (m.value env)) → (within context e).ty ≡ Some t
        → bound_type written (Some t) ≡ Some t → PatternKeeps pattern.1 pm.fits
        → (env : Env) → IsWellTypedEnv context env
        → has_broken (let_with context e.0 span (within context e) written (pattern_alone false context (bound_type written (within context e).ty) pattern)).faults ≡ false
        → GoesOnTyped (let_with context e.0 span (within context e) written (pattern_alone false context (bound_type written (within context e).ty) pattern)) env
        (λ rest env. and_then (m.value env) (λ v. and_then (fits_in_scope pm v env) rest)) }
    ensures statements { (context : TypeEnv) (ss : List StatementTyping) (gs : List StmtDen) → AllKeep context ss gs → StatementKeeps context (statements_typing ss) (statements_den gs) }
    ensures whole { (span : Span) (context : TypeEnv) (ss : List StatementTyping) (gs : List StmtDen) (o : Option ExprPair) (p : Option ExprDen) (size : Option ℕ) (env : Env)
        → AllKeep context ss gs → LastGives (statements_typing ss false context).context o p → IsWellTypedEnv context env
        → GivesItsType (types_at (statements_typing ss false context).context)
        (settled span (last_typing (statements_typing ss false context).context o).ty ((statements_typing ss false context).faults ++ (last_typing (statements_typing ss false context).context o).faults)
        ((statements_typing ss false context).reached ++ (last_typing (statements_typing ss false context).context o).reached) size)
        (statements_den gs (last_den p) env) }
{}

/// `match`, where each arm gives a value of its type behind a pattern that fits, and the value comes to an arm.
pub fn matches_give_values_of_their_types()
    ensures { (span : Span) (context : TypeEnv) (e : ExprPair) (arms : List ArmSeen) (ms : List ArmDen) (x : Option DslxValue) (env : Env)
        → GivesItsType (types_at context) (alone context e) x
        → ((v : DslxValue) → x ≡ Some v → EachArmGives context (alone context e).ty arms ms v env × (comes_to_an_arm ms v env ≡ true))
        → GivesItsType (types_at context) (match_typing span context e arms) (and_then x (λ v. match_arms ms v env)) }
{}
