//! What the rules of types make.

ghost use Rattle.std.specs.Prelude.{◌≡◌, OnOk};
ghost use Rattle.dslx_actions.specs.Types.Types.{array_type, named_type, negative, tuple_type, wide_type};

use crate::{Digits, NO_DIGITS, NOWHERE, SemanticStacks, join, no_expr, no_ident, no_type};
use dslx_tree::{TypeExpr, TypeNode};
use std::alloc::{AllocError, Global};
use xb_value::{Boxed, Seq};

/// `- number`
pub fn negative(parts: &mut SemanticStacks) -> Result<(), AllocError>
    ensures { OnOk result (parts.new ≡ negative parts.old) }
{
    let sign = parts.take_token_spans(1);
    let number = parts.numbers.pop_or(NO_DIGITS);
    parts.numbers.push(Digits {
        span: join(sign, number.span),
        is_negative: true,
        value: number.value,
    })
}

/// A name that stands for a type.
pub fn named_type(parts: &mut SemanticStacks, alloc: Global) -> Result<(), AllocError>
    ensures { OnOk result (parts.new ≡ named_type parts.old) }
{
    let ident = parts.idents.pop_or(no_ident(alloc));
    parts.types.push(TypeExpr {
        span: ident.span,
        node: TypeNode::Name(ident.name),
    })
}

/// `uN [ expr ]`
pub fn wide_type(parts: &mut SemanticStacks, alloc: Global) -> Result<(), AllocError>
    ensures { OnOk result (parts.new ≡ wide_type parts.old) }
{
    let span = parts.take_token_spans(3);
    let is_signed = parts.flags.pop_or(false);
    let _place = parts.expr_spans.pop_or(NOWHERE);
    let width = Boxed::new(alloc, parts.exprs.pop_or(no_expr()))?;
    parts.types.push(TypeExpr {
        span,
        node: TypeNode::Wide(is_signed, width),
    })
}

/// `( types )`
pub fn tuple_type(parts: &mut SemanticStacks) -> Result<(), AllocError>
    ensures { OnOk result (parts.new ≡ tuple_type parts.old) }
{
    let span = parts.take_token_spans(2);
    let count = parts.counts.pop_or(0);
    let types = Seq::from_vec(parts.types.take_top(count)?);
    parts.types.push(TypeExpr {
        span,
        node: TypeNode::Tuple(types),
    })
}

/// `[ expr ]` behind a type
pub fn array_type(parts: &mut SemanticStacks, alloc: Global) -> Result<(), AllocError>
    ensures { OnOk result (parts.new ≡ array_type parts.old) }
{
    let brackets = parts.take_token_spans(2);
    let _place = parts.expr_spans.pop_or(NOWHERE);
    let size = Boxed::new(alloc, parts.exprs.pop_or(no_expr()))?;
    let element = parts.types.pop_or(no_type());
    let span = join(element.span, brackets);
    let element = Boxed::new(alloc, element)?;
    parts.types.push(TypeExpr {
        span,
        node: TypeNode::Array(element, size),
    })
}
