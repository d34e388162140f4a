//! Numbers, `true` and `false`.

ghost use Rattle.std.specs.Prelude.{IfOk};
ghost use Rattle.dslx_check_facts.specs.Walks.{shown};
ghost use Rattle.dslx_check_leaves.specs.Fits.Typed as fits;
ghost use Rattle.dslx_check_rules.specs.Nodes.Nodes.Aggregates as half;
ghost use Rattle.dslx_check_leaves.specs.Typed as tree;
ghost use Rattle.dslx_check_leaves.specs.Walked.{JudgesPart};

use crate::types::type_expr;
use dslx_check_facts::{Facts, TypeEnv, Walk};
use dslx_check_rules::nodes::aggregates::{bool_node, number_typing, untyped_number};
use dslx_check_rules::{Typing, limited};
use dslx_meaning::UntypedLiteral;
use dslx_tree::Number;
use std::alloc::AllocError;
use xb_span::Span;

/// A number as a value.
#[cycle(parts)]
pub(crate) fn number_node<'a>(
    f: &Facts<'a>,
    w: &mut Walk,
    s: &mut TypeEnv<'a>,
    span: Span,
    number: &'a Number,
) -> Result<Typing, AllocError>
    ensures { IfOk result (λ j. JudgesPart f.now s.old s.new (shown w.old) (shown w.new) j (tree.number_node_at span number.now)) }
{
    let value = number_value(f, w, s, span, number)?;
    Ok(limited(&w.types, span, value))
}

/// A number, to whose type no limit applies.
#[cycle(parts)]
pub(crate) fn number_value<'a>(
    f: &Facts<'a>,
    w: &mut Walk,
    s: &mut TypeEnv<'a>,
    span: Span,
    number: &'a Number,
) -> Result<Typing, AllocError>
    ensures { IfOk result (λ j. JudgesPart f.now s.old s.new (shown w.old) (shown w.new) j (fits.number_at span number.now)) }
{
    match &number.ty {
        None => Ok(untyped_number(span)),
        Some(ty) => {
            let written = type_expr(f, w, s, ty.get())?;
            let literal = UntypedLiteral {
                is_negative: number.is_negative,
                value: number.value,
            };
            Ok(number_typing(&w.types, span, literal, written))
        }
    }
}

/// `true` or `false`.
pub(crate) fn bool_value<'a>(
    f: &Facts<'a>,
    w: &mut Walk,
    s: &mut TypeEnv<'a>,
    span: Span,
) -> Result<Typing, AllocError>
    ensures { IfOk result (λ j. JudgesPart f.now s.old s.new (shown w.old) (shown w.new) j (λ context. half.bool_node span)) }
{
    bool_node(&mut w.types, span)
}
