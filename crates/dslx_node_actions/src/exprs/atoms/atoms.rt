//! What the rules of numbers, names, arrays and parentheses make.

ghost use Rattle.std.specs.Prelude.{◌≡◌, ◌∷◌, drop, take, reverse, IfOk, OnOk};
ghost use Rattle.dslx_node_actions.specs.Exprs.Atoms.Atoms.{array_at, array_expr, bare_number, bool_expr, grouped, last_element, member_expr, name_expr, repeated, tuple_expr, typed_array, typed_number, unit_expr};
ghost use Rattle.dslx_actions.specs.Empty.{no_expr as absent_expr};
ghost use Rattle.base.specs.Stacks.Tops.{top_or};

use crate::exprs::atoms::exprs::{pop_expr, push_expr};
use dslx_actions::{NO_DIGITS, NOWHERE, SemanticStacks, join, no_expr, no_ident, no_type};
use dslx_tree::{Expr, Node, Number, TypeExpr};
use std::alloc::{AllocError, Global};
use xb_span::Span;
use xb_value::{Boxed, Seq};

/// A number alone.
pub fn bare_number(parts: &mut SemanticStacks) -> Result<(), AllocError>
    ensures { OnOk result (parts.new ≡ bare_number parts.old) }
{
    let number = parts.numbers.pop_or(NO_DIGITS);
    let node = Node::Number(Number {
        ty: None,
        is_negative: number.is_negative,
        value: number.value,
    });
    push_expr(parts, number.span, node)
}

/// `: number` behind a type
pub fn typed_number(parts: &mut SemanticStacks, alloc: Global) -> Result<(), AllocError>
    ensures { OnOk result (parts.new ≡ typed_number parts.old) }
{
    parts.skip(1);
    let ty = parts.types.pop_or(no_type());
    let number = parts.numbers.pop_or(NO_DIGITS);
    let span = join(ty.span, number.span);
    let ty = Some(Boxed::new(alloc, ty)?);
    let node = Node::Number(Number {
        ty,
        is_negative: number.is_negative,
        value: number.value,
    });
    push_expr(parts, span, node)
}

/// `true` or `false`
pub fn bool_expr(parts: &mut SemanticStacks, value: bool) -> Result<(), AllocError>
    ensures { OnOk result (parts.new ≡ bool_expr value parts.old) }
{
    let span = parts.take_token_spans(1);
    push_expr(parts, span, Node::Bool(value))
}

/// The elements of an array end.
pub fn last_element(parts: &mut SemanticStacks) -> Result<(), AllocError>
    ensures { OnOk result (parts.new ≡ last_element parts.old) }
{
    parts.counts.push(0)?;
    parts.flags.push(false)
}

/// The elements of an array end with `...`.
pub fn repeated(parts: &mut SemanticStacks) -> Result<(), AllocError>
    ensures { OnOk result (parts.new ≡ repeated parts.old) }
{
    parts.skip(1);
    parts.counts.push(0)?;
    parts.flags.push(true)
}

/// `[ elements ]`
pub fn array_expr(parts: &mut SemanticStacks) -> Result<(), AllocError>
    ensures { OnOk result (parts.new ≡ array_expr parts.old) }
{
    let span = parts.take_token_spans(2);
    array_at(parts, span, None)
}

/// `: [ elements ]` behind a type
pub fn typed_array(parts: &mut SemanticStacks, alloc: Global) -> Result<(), AllocError>
    ensures { OnOk result (parts.new ≡ typed_array parts.old) }
{
    let token_spans = parts.take_token_spans(3);
    let ty = parts.types.pop_or(no_type());
    let span = join(ty.span, token_spans);
    let ty = Boxed::new(alloc, ty)?;
    array_at(parts, span, Some(ty))
}

/// The elements of an array with this span and this type.
fn array_at(
    parts: &mut SemanticStacks,
    span: Span,
    ty: Option<Boxed<TypeExpr>>,
) -> Result<(), AllocError>
    ensures { OnOk result (parts.new ≡ array_at span ty parts.old) }
{
    let is_repeated = parts.flags.pop_or(false);
    let count = parts.counts.pop_or(0);
    parts.expr_spans.drop_top(count);
    let elements = Seq::from_vec(parts.exprs.take_top(count)?);
    push_expr(parts, span, Node::Array(ty, elements, is_repeated))
}

/// A name, and nothing behind it.
pub fn name_expr(parts: &mut SemanticStacks, alloc: Global) -> Result<(), AllocError>
    ensures { OnOk result (parts.new ≡ name_expr parts.old) }
{
    let ident = parts.idents.pop_or(no_ident(alloc));
    push_expr(parts, ident.span, Node::Name(ident.name))
}

/// `:: name` behind a name
pub fn member_expr(parts: &mut SemanticStacks, alloc: Global) -> Result<(), AllocError>
    ensures { OnOk result (parts.new ≡ member_expr parts.old) }
{
    parts.skip(1);
    let member = parts.idents.pop_or(no_ident(alloc));
    let owner = parts.idents.pop_or(no_ident(alloc));
    push_expr(
        parts,
        join(owner.span, member.span),
        Node::Member(owner, member),
    )
}

/// `( )`
pub fn unit_expr(parts: &mut SemanticStacks, alloc: Global) -> Result<(), AllocError>
    ensures { OnOk result (parts.new ≡ unit_expr parts.old) }
{
    let span = parts.take_token_spans(2);
    push_expr(parts, span, Node::Tuple(Seq::new(alloc)))
}

/// `( expr )`: the expression stays, and its span takes in the parentheses.
pub fn grouped(parts: &mut SemanticStacks) -> Result<(), AllocError>
    ensures { OnOk result (parts.new ≡ grouped parts.old) }
{
    let span = parts.take_token_spans(2);
    let (_, expr) = pop_expr(parts);
    parts.exprs.push(expr)?;
    parts.expr_spans.push(span)
}

/// `( expr , exprs )`
pub fn tuple_expr(parts: &mut SemanticStacks) -> Result<(), AllocError>
    ensures { OnOk result (parts.new ≡ tuple_expr parts.old) }
{
    let span = parts.take_token_spans(3);
    let count = parts.counts.pop_or(0);
    let values = take_values(parts, count)?;
    push_expr(parts, span, Node::Tuple(values))
}

/// Takes the last so many expressions and the one before them.
fn take_values(parts: &mut SemanticStacks, count: usize) -> Result<Seq<Expr>, AllocError>
    ensures taken { IfOk result (λ r. r ≡ top_or absent_expr (drop count parts.old.exprs) ∷ reverse (take count parts.old.exprs)) }
    ensures rest { OnOk result (parts.new ≡ record parts.old {
      expr_spans = drop 1 (drop count parts.old.expr_spans);
      exprs = drop 1 (drop count parts.old.exprs);
    }) }
{
    parts.expr_spans.drop_top(count);
    let _place = parts.expr_spans.pop_or(NOWHERE);
    Ok(Seq::from_vec(parts.exprs.take_top_and_one(count, no_expr())?))
}
