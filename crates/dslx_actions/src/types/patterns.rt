//! What the rules of patterns make.

ghost use Rattle.std.specs.Prelude.{◌≡◌, OnOk};
ghost use Rattle.dslx_actions.specs.Types.Patterns.{bool_pattern, member_pattern, name_pattern, tuple_pattern, typed_pattern, wild_pattern};

use crate::{NO_DIGITS, SemanticStacks, join, no_ident, no_type};
use dslx_tree::{Number, Pattern, Shape};
use std::alloc::{AllocError, Global};
use xb_value::{Boxed, Seq};

/// `_`
pub fn wild_pattern(parts: &mut SemanticStacks) -> Result<(), AllocError>
    ensures { OnOk result (parts.new ≡ wild_pattern parts.old) }
{
    let span = parts.take_token_spans(1);
    parts.patterns.push(Pattern {
        span,
        shape: Shape::Wild,
    })
}

/// `true` or `false`
pub fn bool_pattern(parts: &mut SemanticStacks, value: bool) -> Result<(), AllocError>
    ensures { OnOk result (parts.new ≡ bool_pattern value parts.old) }
{
    let span = parts.take_token_spans(1);
    parts.patterns.push(Pattern {
        span,
        shape: Shape::Bool(value),
    })
}

/// `: number` behind a type
pub fn typed_pattern(parts: &mut SemanticStacks, alloc: Global) -> Result<(), AllocError>
    ensures { OnOk result (parts.new ≡ typed_pattern parts.old) }
{
    parts.skip(1);
    let ty = parts.types.pop_or(no_type());
    let number = parts.numbers.pop_or(NO_DIGITS);
    let span = join(ty.span, number.span);
    let ty = Some(Boxed::new(alloc, ty)?);
    parts.patterns.push(Pattern {
        span,
        shape: Shape::Number(Number {
            ty,
            is_negative: number.is_negative,
            value: number.value,
        }),
    })
}

/// A name, and nothing behind it.
pub fn name_pattern(parts: &mut SemanticStacks, alloc: Global) -> Result<(), AllocError>
    ensures { OnOk result (parts.new ≡ name_pattern parts.old) }
{
    let ident = parts.idents.pop_or(no_ident(alloc));
    parts.patterns.push(Pattern {
        span: ident.span,
        shape: Shape::Name(ident.name),
    })
}

/// `:: name` behind a name
pub fn member_pattern(parts: &mut SemanticStacks, alloc: Global) -> Result<(), AllocError>
    ensures { OnOk result (parts.new ≡ member_pattern parts.old) }
{
    parts.skip(1);
    let member = parts.idents.pop_or(no_ident(alloc));
    let owner = parts.idents.pop_or(no_ident(alloc));
    parts.patterns.push(Pattern {
        span: join(owner.span, member.span),
        shape: Shape::Member(owner, member),
    })
}

/// `( patterns )`
pub fn tuple_pattern(parts: &mut SemanticStacks) -> Result<(), AllocError>
    ensures { OnOk result (parts.new ≡ tuple_pattern parts.old) }
{
    let span = parts.take_token_spans(2);
    let count = parts.counts.pop_or(0);
    let patterns = Seq::from_vec(parts.patterns.take_top(count)?);
    parts.patterns.push(Pattern {
        span,
        shape: Shape::Tuple(patterns),
    })
}
