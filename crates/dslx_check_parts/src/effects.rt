//! Effects.

ghost use Rattle.std.specs.Prelude.{◌∷◌, IfOk, map};
ghost use Rattle.dslx_meaning.specs.Rules.CallRules as the;
ghost use Rattle.dslx_check_leaves.specs.Named.Constants.{expr_typed};
ghost use Rattle.dslx_check_facts.specs.Walks.{shown};
ghost use Rattle.dslx_check_rules.specs.Control.Effects as half;
ghost use Rattle.dslx_check_leaves.specs.Typed as tree;
ghost use Rattle.dslx_check_leaves.specs.Walked.{JudgedFaults, JudgesPart};

use crate::arguments::{all_given, all_placed};
use crate::tokens::{channel, held, token};
use dslx_check_facts::{Facts, TypeEnv, Walk};
use dslx_check_leaves::fits_effect;
use dslx_check_rules::control::calls::{given_faults, wrong_call_typing};
use dslx_check_rules::control::effects::{effect_typing, only_on_top};
use dslx_check_rules::nodes::lists::faults_of_all;
use dslx_check_rules::{Faults, Typing};
use dslx_tree::{Arg, Direction, Expr};
use std::alloc::AllocError;
use xb_span::Span;

/// An effect, which stands at the top of `next` alone.
#[cycle(parts)]
pub(crate) fn effect_if_on_top<'a>(
    f: &Facts<'a>,
    w: &mut Walk,
    s: &mut TypeEnv<'a>,
    span: Span,
    direction: Direction,
    count: usize,
    args: &'a [Arg],
    operands: &'a [Expr],
    on_top: bool,
) -> Result<Typing, AllocError>
    ensures { IfOk result (λ j. JudgesPart f.now s.old s.new (shown w.old) (shown w.new) j (λ context. the.only_on_top on_top span (tree.effect_at direction count span args.now operands.now context))) }
{
    let own = effect(f, w, s, span, direction, count, args, operands)?;
    Ok(only_on_top(on_top, span, own))
}

#[cycle(parts)]
fn effect<'a>(
    f: &Facts<'a>,
    w: &mut Walk,
    s: &mut TypeEnv<'a>,
    span: Span,
    direction: Direction,
    count: usize,
    args: &'a [Arg],
    operands: &'a [Expr],
) -> Result<Typing, AllocError>
    ensures { IfOk result (λ j. JudgesPart f.now s.old s.new (shown w.old) (shown w.new) j (tree.effect_at direction count span args.now operands.now)) }
{
    if fits_effect(count, args, operands) {
        right_effect(f, w, s, span, direction, args, operands)
    } else {
        wrong_effect(f, w, s, span, args, operands)
    }
}

/// An effect of a token, a channel and others.
#[cycle(parts)]
fn right_effect<'a>(
    f: &Facts<'a>,
    w: &mut Walk,
    s: &mut TypeEnv<'a>,
    span: Span,
    direction: Direction,
    args: &'a [Arg],
    operands: &'a [Expr],
) -> Result<Typing, AllocError>
    ensures { IfOk result (λ j. JudgesPart f.now s.old s.new (shown w.old) (shown w.new) j (tree.right_effect_at direction span args.now operands.now)) }
{
    match operands {
        [first, end, others @ ..] => effect_of(f, w, s, span, direction, first, end, others),
        _ => wrong_effect(f, w, s, span, args, operands),
    }
}

#[cycle(parts)]
fn effect_of<'a>(
    f: &Facts<'a>,
    w: &mut Walk,
    s: &mut TypeEnv<'a>,
    span: Span,
    direction: Direction,
    first: &'a Expr,
    end: &'a Expr,
    others: &'a [Expr],
) -> Result<Typing, AllocError>
    ensures { IfOk result (λ j. JudgesPart f.now s.old s.new (shown w.old) (shown w.new) j (λ context. half.effect_of span context direction (the.token_typing context (expr_typed first.now)) (the.channel_seen context (expr_typed end.now)) (map (tree.placed context) others.now))) }
{
    let before = token(f, w, s, first)?;
    let to = channel(f, w, s, end)?;
    let rest = all_placed(f, w, s, others)?;
    effect_typing(
        f.alloc,
        &mut w.types,
        span,
        direction,
        before,
        to,
        rest.as_slice(),
    )
}

/// An effect of another number of arguments.
#[cycle(parts)]
fn wrong_effect<'a>(
    f: &Facts<'a>,
    w: &mut Walk,
    s: &mut TypeEnv<'a>,
    span: Span,
    args: &'a [Arg],
    operands: &'a [Expr],
) -> Result<Typing, AllocError>
    ensures { IfOk result (λ j. JudgesPart f.now s.old s.new (shown w.old) (shown w.new) j (λ context. the.wrong_effect span context (map (tree.given_at context) args.now) (map expr_typed operands.now))) }
{
    let given = all_given(f, w, s, args)?;
    let places = wrong_operands(f, w, s, operands)?;
    let parts = given_faults(given.as_slice()).and(places);
    Ok(wrong_call_typing(&w.types, span, parts, Faults::none()))
}

/// What its operands break.
#[cycle(parts)]
fn wrong_operands<'a>(
    f: &Facts<'a>,
    w: &mut Walk,
    s: &mut TypeEnv<'a>,
    operands: &'a [Expr],
) -> Result<Faults, AllocError>
    ensures { IfOk result (λ faults. JudgedFaults f.now s.old s.new (shown w.old) (shown w.new) faults (tree.wrong_operands_at operands.now)) }
{
    match operands {
        [] => Ok(Faults::none()),
        [first] => {
            let before = held(f, w, s, first)?;
            Ok(before.faults)
        }
        [first, end, others @ ..] => wrong_places(f, w, s, first, end, others),
    }
}

#[cycle(parts)]
fn wrong_places<'a>(
    f: &Facts<'a>,
    w: &mut Walk,
    s: &mut TypeEnv<'a>,
    first: &'a Expr,
    end: &'a Expr,
    others: &'a [Expr],
) -> Result<Faults, AllocError>
    ensures { IfOk result (λ faults. JudgedFaults f.now s.old s.new (shown w.old) (shown w.new) faults (tree.wrong_operands_at (first.now ∷ end.now ∷ others.now))) }
{
    let before = held(f, w, s, first)?;
    let to = channel(f, w, s, end)?;
    let rest = all_placed(f, w, s, others)?;
    let behind = to.typing.faults.and(faults_of_all(rest.as_slice()));
    Ok(before.faults.and(behind))
}
