//! An expression and its span on the stacks.

ghost use Rattle.std.specs.Prelude.{◌≡◌, ◌∷◌, drop, IfOk, OnOk};
ghost use Rattle.dslx_node_actions.specs.Exprs.Atoms.Exprs.{expr_at, first_expr, first_span};

use dslx_actions::{NOWHERE, SemanticStacks, no_expr};
use dslx_tree::{Expr, Node};
use std::alloc::{AllocError, Global};
use xb_span::Span;
use xb_value::Boxed;

/// Adds an expression and its span.
pub fn push_expr(parts: &mut SemanticStacks, span: Span, node: Node) -> Result<(), AllocError>
    ensures { OnOk result (parts.new ≡ record parts.old {
      expr_spans = span ∷ parts.old.expr_spans;
      exprs = expr_at span node ∷ parts.old.exprs;
    }) }
{
    parts.exprs.push(Expr { span, node })?;
    parts.expr_spans.push(span)
}

/// Takes the expression on top, with its span.
pub fn pop_expr(parts: &mut SemanticStacks) -> (Span, Expr)
    ensures place { result.0 ≡ first_span parts.old }
    ensures expr { result.1 ≡ first_expr parts.old }
    ensures rest { parts.new ≡ record parts.old {
      expr_spans = drop 1 parts.old.expr_spans;
      exprs = drop 1 parts.old.exprs;
    } }
{
    let place = parts.expr_spans.pop_or(NOWHERE);
    (place, parts.exprs.pop_or(no_expr()))
}

/// The same in a box, for an expression that becomes a part of a bigger one.
pub fn pop_boxed(
    parts: &mut SemanticStacks,
    alloc: Global,
) -> Result<(Span, Boxed<Expr>), AllocError>
    ensures top { IfOk result (λ r. r ≡ (first_span parts.old, first_expr parts.old)) }
    ensures rest { OnOk result (parts.new ≡ record parts.old {
      expr_spans = drop 1 parts.old.expr_spans;
      exprs = drop 1 parts.old.exprs;
    }) }
{
    let (place, value) = pop_expr(parts);
    Ok((place, Boxed::new(alloc, value)?))
}
