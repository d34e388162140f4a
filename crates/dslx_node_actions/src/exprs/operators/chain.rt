//! What an expression of operators and operands makes.

ghost use Rattle.std.specs.Prelude.{◌≡◌, drop, reverse, IfOk, OnOk};
ghost use Rattle.dslx_tree.specs.Operators.Levels.{tree_of};
ghost use Rattle.dslx_node_actions.specs.Exprs.Operators.Operators.{chain, links_of, placed};

use crate::exprs::atoms::{pop_boxed, pop_expr};
use dslx_actions::SemanticStacks;
use dslx_tree::operators::{Link, Operand, tree};
use dslx_tree::{Binary, Expr};
use std::alloc::{AllocError, Global};
use xb_span::Span;
use xb_value::Boxed;

/// Operands with operators between them.
pub fn chain(parts: &mut SemanticStacks, alloc: Global) -> Result<(), AllocError>
    ensures { OnOk result (parts.new ≡ chain parts.old) }
{
    let count = parts.counts.pop_or(0);
    let links = take_links(parts, alloc, count)?;
    let (span, expr) = pop_expr(parts);
    let (span, expr) = joined(alloc, span, expr, links)?;
    parts.exprs.push(expr)?;
    parts.expr_spans.push(span)
}

/// The tree of a chain with its span, at once where it has no operator, as most have none.
fn joined(
    alloc: Global,
    span: Span,
    expr: Expr,
    links: Vec<Link>,
) -> Result<(Span, Expr), AllocError>
    ensures { IfOk result (λ r. r ≡ placed (tree_of (record { span = span; expr = expr }) (reverse links.items))) }
{
    if links.is_empty() {
        Ok((span, expr))
    } else {
        let expr = Boxed::new(alloc, expr)?;
        let Operand { span, expr } = tree(alloc, Operand { span, expr }, links)?;
        Ok((span, expr.into_inner()))
    }
}

/// Takes the last so many operands with the operators before them, the last one first.
fn take_links(
    parts: &mut SemanticStacks,
    alloc: Global,
    count: usize,
) -> Result<Vec<Link>, AllocError>
    ensures links { IfOk result (λ links. reverse links.items
        ≡ links_of count parts.old.operators parts.old.expr_spans parts.old.exprs) }
    ensures rest { OnOk result (parts.new ≡ record parts.old {
      operators = drop count parts.old.operators;
      expr_spans = drop count parts.old.expr_spans;
      exprs = drop count parts.old.exprs;
    }) }
{
    let mut links = Vec::new(alloc);
    'takes: for _ in 0..count {
        let operator = parts.operators.pop_or(Binary::Mul);
        let (span, expr) = pop_boxed(parts, alloc)?;
        links.push(Link {
            operator,
            operand: Operand { span, expr },
        })?;
    }
    Ok(links)
}
