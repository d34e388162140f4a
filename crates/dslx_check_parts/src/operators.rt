//! Operators, casts, slices and parts of bits.

ghost use Rattle.std.specs.Prelude.{IfOk};
ghost use Rattle.dslx_meaning.specs.Rules.OperatorRules as operators;
ghost use Rattle.dslx_check_leaves.specs.Named.Constants.{expr_typed};
ghost use Rattle.dslx_check_facts.specs.Walks.{shown};
ghost use Rattle.dslx_check_leaves.specs.Fits.Typed.{type_typed};
ghost use Rattle.dslx_check_leaves.specs.Walked.{JudgesPart};

use crate::constants::constant_or_untyped;
use crate::exprs::alone;
use crate::types::type_expr;
use dslx_check_facts::{Facts, TypeEnv, Walk};
use dslx_check_rules::Typing;
use dslx_check_rules::nodes::{Spanned, operators as nodes};
use dslx_tree::{Binary, Expr, TypeExpr};
use std::alloc::AllocError;
use xb_span::Span;

/// A prefix operator.
#[cycle(parts)]
pub(crate) fn prefix<'a>(
    f: &Facts<'a>,
    w: &mut Walk,
    s: &mut TypeEnv<'a>,
    span: Span,
    operand: &'a Expr,
) -> Result<Typing, AllocError>
    ensures { IfOk result (λ j. JudgesPart f.now s.old s.new (shown w.old) (shown w.new) j (λ context. operators.prefix_typing span context (expr_typed operand.now))) }
{
    let value = alone(f, w, s, operand)?;
    Ok(nodes::prefix_typing(&w.types, span, value))
}

/// A binary operator.
#[cycle(parts)]
pub(crate) fn binary<'a>(
    f: &Facts<'a>,
    w: &mut Walk,
    s: &mut TypeEnv<'a>,
    span: Span,
    op: Binary,
    left: &'a Expr,
    right: &'a Expr,
) -> Result<Typing, AllocError>
    ensures { IfOk result (λ j. JudgesPart f.now s.old s.new (shown w.old) (shown w.new) j (λ context. operators.binary_typing span context op (expr_typed left.now) (expr_typed right.now))) }
{
    let first = alone(f, w, s, left)?;
    let second = alone(f, w, s, right)?;
    let left = Spanned {
        span: left.span,
        typing: first,
    };
    let right = Spanned {
        span: right.span,
        typing: second,
    };
    nodes::binary_typing(&mut w.types, op, span, left, right)
}

/// A cast.
#[cycle(parts)]
pub(crate) fn cast<'a>(
    f: &Facts<'a>,
    w: &mut Walk,
    s: &mut TypeEnv<'a>,
    span: Span,
    value: &'a Expr,
    ty: &'a TypeExpr,
) -> Result<Typing, AllocError>
    ensures { IfOk result (λ j. JudgesPart f.now s.old s.new (shown w.old) (shown w.new) j (λ context. operators.cast_typing span context (expr_typed value.now) ((type_typed ty.now).1 context))) }
{
    let from = alone(f, w, s, value)?;
    let target = type_expr(f, w, s, ty)?;
    Ok(nodes::cast_typing(&w.types, span, from, target))
}

/// A slice from one constant to another.
#[cycle(parts)]
pub(crate) fn slice<'a>(
    f: &Facts<'a>,
    w: &mut Walk,
    s: &mut TypeEnv<'a>,
    span: Span,
    whole: &'a Expr,
    from: &'a Expr,
    to: &'a Expr,
) -> Result<Typing, AllocError>
    ensures { IfOk result (λ j. JudgesPart f.now s.old s.new (shown w.old) (shown w.new) j (λ context. operators.slice_typing span context (expr_typed whole.now) (expr_typed from.now) (expr_typed to.now))) }
{
    let value = alone(f, w, s, whole)?;
    let first = constant_or_untyped(f, w, s, from)?;
    let second = constant_or_untyped(f, w, s, to)?;
    nodes::slice_typing(&mut w.types, span, value, &first.constant, &second.constant)
}

/// A part of this type from a start on.
#[cycle(parts)]
pub(crate) fn part<'a>(
    f: &Facts<'a>,
    w: &mut Walk,
    s: &mut TypeEnv<'a>,
    span: Span,
    whole: &'a Expr,
    start: &'a Expr,
    ty: &'a TypeExpr,
) -> Result<Typing, AllocError>
    ensures { IfOk result (λ j. JudgesPart f.now s.old s.new (shown w.old) (shown w.new) j (λ context. operators.part_typing span context (expr_typed whole.now) (expr_typed start.now) ((type_typed ty.now).1 context))) }
{
    let value = alone(f, w, s, whole)?;
    let first = alone(f, w, s, start)?;
    let target = type_expr(f, w, s, ty)?;
    Ok(nodes::part_typing(&w.types, span, value, first, target))
}
