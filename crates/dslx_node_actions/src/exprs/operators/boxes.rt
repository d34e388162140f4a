//! Expressions that become parts of a bigger one.

ghost use Rattle.std.specs.Prelude.{◌≡◌, drop, IfOk, OnOk};
ghost use Rattle.dslx_node_actions.specs.Exprs.Atoms.Exprs.{first_expr, second_expr, second_span};

use crate::exprs::atoms::pop_boxed;
use dslx_actions::SemanticStacks;
use dslx_tree::Expr;
use std::alloc::{AllocError, Global};
use xb_span::Span;
use xb_value::Boxed;

/// Takes the two expressions on top, the lower one first, with its span.
pub fn pop_pair(
    parts: &mut SemanticStacks,
    alloc: Global,
) -> Result<(Span, Boxed<Expr>, Boxed<Expr>), AllocError>
    ensures top { IfOk result (λ r. r ≡ (second_span parts.old, second_expr parts.old, first_expr parts.old)) }
    ensures rest { OnOk result (parts.new ≡ record parts.old {
      expr_spans = drop 1 (drop 1 parts.old.expr_spans);
      exprs = drop 1 (drop 1 parts.old.exprs);
    }) }
{
    let (_, inner) = pop_boxed(parts, alloc)?;
    let (place, value) = pop_boxed(parts, alloc)?;
    Ok((place, value, inner))
}
