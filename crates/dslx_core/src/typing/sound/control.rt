ghost use Rattle.dslx_meaning.specs.Environment.{Env};
ghost use Rattle.dslx_meaning.specs.Lists.{and_then, with_both};
ghost use Rattle.dslx_meaning.specs.Meaning.{ValueDen, StmtDen, ExprDen, PatternDen, TypeDen, choose, fits_in_scope, last_den, loop_over, statements_den};
ghost use Rattle.dslx_meaning.specs.Operators.{truth};
ghost use Rattle.dslx_meaning.specs.Values.{bits_of};
ghost use Rattle.dslx_meaning.specs.declared.ty.DslxType.{DslxType};
ghost use Rattle.dslx_meaning.specs.Rules.ConstantRules.{constant_of};
ghost use Rattle.dslx_meaning.specs.Rules.ControlRules.{behind, bound_type, if_typing, last_typing, let_with, loop_with, same_ends, statements_typing, written_typing};
ghost use Rattle.dslx_meaning.specs.Rules.TypeEnvs.{ExprPair, TypeEnv, alone, one_and, plus_size, settled};
ghost use Rattle.dslx_meaning.specs.Rules.Typings.{BlockPair, PatternPair, StatementTyping, TypePair};
ghost use Rattle.dslx_meaning.specs.Rules.PatternRules.{pattern_alone};
ghost use Rattle.dslx_core.specs.Typing.Sound.Sound.{BlockGives, ExprGives, ExprGivesIf, HasTypedValue, StatementGives, StatementsGive, TypeHasDenIf, loop_at, turn_of};
ghost use Rattle.dslx_core.specs.Typing.Typed.Complete.{IsWellTypedPart};
ghost use Rattle.dslx_core.specs.Typing.Typed.WellTyped.{IsWellTypedEnv, PatternKeeps, types_at};
ghost use Rattle.std.specs.Prelude.{List, Option, false, ◌++◌, ◌≡◌};
ghost use Rattle.xb_span.specs.declared.span.Span.{Span};

/// `if`, statements, blocks and loops.
pub fn control_has_values_of_its_types()
    ensures branches { (span : Span) (context : TypeEnv) (env : Env) (c : ExprPair) (a : BlockPair) (b : ExprPair) (x : ExprDen) (f : ValueDen) (y : ExprDen) → ExprGives c x → BlockGives a.1 f → ExprGives b y → IsWellTypedEnv context env
        → IsWellTypedPart context.known (if_typing span context c a b) → HasTypedValue (types_at context) (if_typing span context c a b) (choose (and_then (x.value env) truth) (f env) (y.value env)) }
    ensures binding { (span : Span) (e : ExprPair) (x : ExprDen) (written : Option TypePair) (f : Option TypeDen) (pattern : PatternPair) (pm : PatternDen) → ExprGives e x → TypeHasDenIf written f → PatternKeeps pattern.1 pm.fits
        → StatementGives (λ on_top context. let_with context e.0 span (e.1 on_top context) (written_typing context written) (pattern_alone false context (bound_type (written_typing context written) (e.1 on_top context).ty) pattern))
        (λ rest env. and_then (x.value env) (λ v. and_then (fits_in_scope pm v env) rest)) }
    ensures bare { (e : ExprPair) (x : ExprDen) → ExprGives e x
        → StatementGives (λ on_top context. record { context = behind context context.locals e.0; faults = (alone context e).faults; reached = (alone context e).reached; size = (alone context e).size }) (λ rest env. and_then (x.value env) (λ v. rest env)) }
    ensures block { (span : Span) (ss : List StatementTyping) (gs : List StmtDen) (o : Option ExprPair) (x : Option ExprDen) → StatementsGive ss gs → ExprGivesIf o x
        → BlockGives (λ on_top context. settled span (last_typing (statements_typing ss on_top context).context o).ty ((statements_typing ss on_top context).faults ++ (last_typing (statements_typing ss on_top context).context o).faults)
        ((statements_typing ss on_top context).reached ++ (last_typing (statements_typing ss on_top context).context o).reached)
        (one_and (plus_size (statements_typing ss on_top context).size (last_typing (statements_typing ss on_top context).context o).size)))
        (statements_den gs (last_den x)) }
    ensures turns { (span body_span : Span) (context : TypeEnv) (env : Env) (from to start : ExprPair) (x y z : ExprDen) (written : Option TypePair) (g : Option TypeDen) (index acc : PatternPair) (im am : PatternDen) (body : BlockPair) (f : ValueDen)
        → ExprGives from x → ExprGives to y → ExprGives start z → TypeHasDenIf written g → PatternKeeps index.1 im.fits → PatternKeeps acc.1 am.fits → BlockGives body.1 f → IsWellTypedEnv context env
        → (ends : Option DslxType) → same_ends (constant_of context from).judgement.ty (constant_of context to).judgement.ty ≡ ends
        → IsWellTypedPart context.known (loop_with span body_span (loop_at context from to start written index acc body ends))
        → HasTypedValue (types_at context) (loop_with span body_span (loop_at context from to start written index acc body ends))
        (and_then (z.value env) (λ s. with_both (and_then (x.value env) bits_of) (and_then (y.value env) bits_of) (loop_over (turn_of im am f env) s))) }
{}
