//! What the rules of operators make, and those of what stands behind an atom.

ghost use Rattle.std.specs.Prelude.{◌≡◌, OnOk};
ghost use Rattle.dslx_node_actions.specs.Exprs.Operators.Operators.{cast_expr, element_expr, field_expr, index_expr, operator, part_expr, prefixed, slice_expr};

use crate::exprs::atoms::{pop_boxed, push_expr};
use crate::exprs::operators::boxes::pop_pair;
use dslx_actions::{NO_DIGITS, SemanticStacks, join, no_ident, no_type};
use dslx_tree::{Binary, Node, Prefix};
use std::alloc::{AllocError, Global};
use xb_value::Boxed;

/// The sign of an operator.
pub fn operator(parts: &mut SemanticStacks, sign: Binary) -> Result<(), AllocError>
    ensures { OnOk result (parts.new ≡ operator sign parts.old) }
{
    parts.skip(1);
    parts.operators.push(sign)
}

/// A sign before an expression.
pub fn prefixed(parts: &mut SemanticStacks, alloc: Global, sign: Prefix) -> Result<(), AllocError>
    ensures { OnOk result (parts.new ≡ prefixed sign parts.old) }
{
    let mark = parts.take_token_spans(1);
    let (place, value) = pop_boxed(parts, alloc)?;
    push_expr(parts, join(mark, place), Node::Prefix(sign, value))
}

/// `as type` behind an expression
pub fn cast_expr(parts: &mut SemanticStacks, alloc: Global) -> Result<(), AllocError>
    ensures { OnOk result (parts.new ≡ cast_expr parts.old) }
{
    parts.skip(1);
    let ty = parts.types.pop_or(no_type());
    let end = ty.span;
    let ty = Boxed::new(alloc, ty)?;
    let (place, value) = pop_boxed(parts, alloc)?;
    push_expr(parts, join(place, end), Node::Cast(value, ty))
}

/// `[ expr ]` behind an expression
pub fn index_expr(parts: &mut SemanticStacks, alloc: Global) -> Result<(), AllocError>
    ensures { OnOk result (parts.new ≡ index_expr parts.old) }
{
    let token_spans = parts.take_token_spans(2);
    let (place, value, index) = pop_pair(parts, alloc)?;
    push_expr(parts, join(place, token_spans), Node::Index(value, index))
}

/// `[ expr : expr ]` behind an expression
pub fn slice_expr(parts: &mut SemanticStacks, alloc: Global) -> Result<(), AllocError>
    ensures { OnOk result (parts.new ≡ slice_expr parts.old) }
{
    let token_spans = parts.take_token_spans(3);
    let (_, to) = pop_boxed(parts, alloc)?;
    let (place, value, from) = pop_pair(parts, alloc)?;
    push_expr(
        parts,
        join(place, token_spans),
        Node::Slice(value, from, to),
    )
}

/// `[ expr +: type ]` behind an expression
pub fn part_expr(parts: &mut SemanticStacks, alloc: Global) -> Result<(), AllocError>
    ensures { OnOk result (parts.new ≡ part_expr parts.old) }
{
    let token_spans = parts.take_token_spans(3);
    let ty = Boxed::new(alloc, parts.types.pop_or(no_type()))?;
    let (place, value, first) = pop_pair(parts, alloc)?;
    push_expr(
        parts,
        join(place, token_spans),
        Node::Part(value, first, ty),
    )
}

/// `. name` behind an expression
pub fn field_expr(parts: &mut SemanticStacks, alloc: Global) -> Result<(), AllocError>
    ensures { OnOk result (parts.new ≡ field_expr parts.old) }
{
    parts.skip(1);
    let ident = parts.idents.pop_or(no_ident(alloc));
    let (place, value) = pop_boxed(parts, alloc)?;
    push_expr(parts, join(place, ident.span), Node::Field(value, ident))
}

/// `. number` behind an expression
pub fn element_expr(parts: &mut SemanticStacks, alloc: Global) -> Result<(), AllocError>
    ensures { OnOk result (parts.new ≡ element_expr parts.old) }
{
    parts.skip(1);
    let number = parts.numbers.pop_or(NO_DIGITS);
    let (place, value) = pop_boxed(parts, alloc)?;
    let node = Node::Element(value, number.span, number.value);
    push_expr(parts, join(place, number.span), node)
}
