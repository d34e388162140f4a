//! Operators, casts and slices.

ghost use Rattle.std.specs.Prelude.{◌≡◌, List, Some, IfOk, OnOk, OnErr};
ghost use Rattle.base.specs.Lists.Prefix.{IsPrefix};
ghost use Rattle.dslx_meaning.specs.Lists.{and_then};
ghost use Rattle.dslx_meaning.specs.Rules.ConstantRules.{ConstantSeen};
ghost use Rattle.dslx_meaning.specs.Rules.OperatorRules as the;
ghost use Rattle.dslx_check_rules.specs.Seen.{seen};
ghost use Rattle.dslx_check_rules.specs.Interned.{HasRowIf, ItemNames, KeepsItems, type_if};
ghost use Rattle.dslx_check_rules.specs.declared.table.row.TypeRow.{TypeRow as Row};
ghost use Rattle.dslx_check_rules.specs.Nodes.Parts.{FromOne, FromSlice, IsSliceBound, FromTwo, FromThree};
ghost use Rattle.dslx_check_rules.specs.Nodes.Nodes.Operators.{prefix_of, binary_of, cast_of, part_of, slice_of, bound_of, is_wrong_bound_of, type_between};

use crate::nodes::parts::{ConstantTyping, Spanned, settle};
use crate::{
    Faults, Operand, TypeId, TypeTable, Typing, binary_faults, binary_type, one_and, plus_size,
    rule, unless_bits, unless_bits_or_enum, unless_unsigned, width_of_type,
};
use dslx_meaning::BitKind;
use dslx_tree::Binary;
use dslx_values::operators::index_number;
use std::alloc::AllocError;
use xb_span::Span;

/// A prefix operator: its operand is bits.
pub fn prefix_typing(types: &TypeTable, span: Span, operand: Typing) -> Typing
    ensures { FromOne (prefix_of span) types.now types.now operand result }
{
    let own = unless_bits(types, rule::PREFIX_OPERAND_IS_BITS, span, operand.ty);
    settle(
        types,
        span,
        operand.ty,
        operand.faults.and(own),
        one_and(operand.size),
    )
}

/// A binary operator.
pub fn binary_typing(
    types: &mut TypeTable,
    op: Binary,
    span: Span,
    left: Spanned,
    right: Spanned,
) -> Result<Typing, AllocError>
    ensures typed { IfOk result (λ j. FromTwo (binary_of span op left.span right.span) types.old types.new left.typing right.typing j) }
    ensures items { OnOk result (KeepsItems types.old types.new) }
    ensures grows { OnOk result (IsPrefix types.old types.new) }
    ensures stays { OnErr result (types.new ≡ types.old) }
{
    let a = Operand {
        span: left.span,
        ty: left.typing.ty,
    };
    let b = Operand {
        span: right.span,
        ty: right.typing.ty,
    };
    let own = binary_faults(types, op, span, a, b);
    let ty = binary_type(types, op, left.typing.ty, right.typing.ty)?;
    let faults = left.typing.faults.and(right.typing.faults).and(own);
    let size = one_and(plus_size(left.typing.size, right.typing.size));
    Ok(settle(types, span, ty, faults, size))
}

/// A cast: from bits or an enum to bits.
pub fn cast_typing(types: &TypeTable, span: Span, value: Typing, target: Typing) -> Typing
    ensures { FromTwo (cast_of span) types.now types.now value target result }
{
    let from = unless_bits_or_enum(types, rule::CAST_TO_BITS, span, value.ty);
    let to = unless_bits(types, rule::CAST_TO_BITS, span, target.ty);
    let faults = value.faults.and(target.faults).and(from).and(to);
    settle(
        types,
        span,
        if_there(value.ty, target.ty),
        faults,
        one_and(value.size),
    )
}

/// The second one where the first one is there.
pub fn if_there(first: Option<TypeId>, second: Option<TypeId>) -> Option<TypeId>
    ensures { result ≡ and_then first (λ t. second) }
{
    match first {
        Some(_) => second,
        None => None,
    }
}

/// A part of bits of a type that is written: the start and the type are unsigned.
pub fn part_typing(
    types: &TypeTable,
    span: Span,
    whole: Typing,
    start: Typing,
    target: Typing,
) -> Typing
    ensures { FromThree (part_of span) types.now types.now whole start target result }
{
    let first = unless_bits(types, rule::SLICE_OF_BITS, span, whole.ty);
    let second = unless_unsigned(types, rule::SLICE_OF_BITS, span, start.ty);
    let third = unless_unsigned(types, rule::SLICE_OF_BITS, span, target.ty);
    let parts = whole.faults.and(start.faults).and(target.faults);
    let faults = parts.and(first).and(second).and(third);
    let ty = if_there(whole.ty, if_there(start.ty, target.ty));
    settle(
        types,
        span,
        ty,
        faults,
        one_and(plus_size(whole.size, start.size)),
    )
}

/// Bits between two bounds.
pub fn slice_typing(
    types: &mut TypeTable,
    span: Span,
    whole: Typing,
    from: &ConstantTyping,
    to: &ConstantTyping,
) -> Result<Typing, AllocError>
    ensures typed { IfOk result (λ j. FromSlice (slice_of span) types.old types.new whole from.now to.now j) }
    ensures items { OnOk result (KeepsItems types.old types.new) }
    ensures grows { OnOk result (IsPrefix types.old types.new) }
    ensures stays { OnErr result (types.new ≡ types.old) }
{
    let own = slice_faults(types, span, whole.ty, from, to);
    let ty = sliced_type(types, whole.ty, bound_number(from), bound_number(to))?;
    let faults = whole
        .faults
        .and(from.typing.faults)
        .and(to.typing.faults)
        .and(own);
    let bounds = plus_size(from.typing.size, to.typing.size);
    let size = one_and(plus_size(whole.size, bounds));
    Ok(settle(types, span, ty, faults, size))
}

/// Bits as wide as the bounds are apart.
fn sliced_type(
    types: &mut TypeTable,
    whole: Option<TypeId>,
    from: Option<u128>,
    to: Option<u128>,
) -> Result<Option<TypeId>, AllocError>
    ensures is { IfOk result (λ ty. (names : ItemNames) (later : List Row) → IsPrefix types.new later → type_if names later ty ≡ and_then (type_if names later whole) (λ t. type_between from to)) }
    ensures there { IfOk result (λ ty. HasRowIf types.new ty) }
    ensures items { OnOk result (KeepsItems types.old types.new) }
    ensures grows { OnOk result (IsPrefix types.old types.new) }
    ensures stays { OnErr result (types.new ≡ types.old) }
{
    match (whole, from, to) {
        (Some(_), Some(from), Some(to)) => {
            let ty = types.bits(BitKind {
                signed: false,
                width: to.saturating_sub(from),
            })?;
            Ok(Some(ty))
        }
        _ => Ok(None),
    }
}

/// What is sliced is bits, and each bound that is known is, is not negative, and lies in it; and they don't fall.
fn slice_faults(
    types: &TypeTable,
    span: Span,
    whole: Option<TypeId>,
    from: &ConstantTyping,
    to: &ConstantTyping,
) -> Faults
    ensures { (names : ItemNames) (later : List Row) → IsPrefix types.now later → HasRowIf types.now whole → HasRowIf types.now from.now.typing.ty → HasRowIf types.now to.now.typing.ty
        → (x y : ConstantSeen) → IsSliceBound names later from.now x → IsSliceBound names later to.now y → result ≡ seen (the.slice_faults span (type_if names later whole) x y) }
{
    let first = unless_bits(types, rule::SLICE_OF_BITS, span, whole);
    let second = unless_bits(types, rule::SLICE_OF_BITS, span, from.typing.ty);
    let third = unless_bits(types, rule::SLICE_OF_BITS, span, to.typing.ty);
    let is_odd = is_wrong_bound(types, whole, from) || is_wrong_bound(types, whole, to);
    let is_wrong = is_odd || bounds_fall(bound_number(from), bound_number(to));
    let last = Faults::breaks_if(is_wrong, rule::SLICE_OF_BITS, span);
    first.and(second.and(third.and(last)))
}

/// The number that a bound is, where it is known and not negative.
fn bound_number(bound: &ConstantTyping) -> Option<u128>
    ensures { result ≡ bound_of bound.now.untyped bound.now.value }
{
    match bound.untyped {
        Some(number) => if number.is_negative {
            None
        } else {
            Some(number.value)
        },
        None => match &bound.value {
            Some(value) => index_number(value),
            None => None,
        },
    }
}

/// A bound that is known is negative, or one is past the width.
fn is_wrong_bound(types: &TypeTable, whole: Option<TypeId>, bound: &ConstantTyping) -> bool
    ensures { (names : ItemNames) (later : List Row) → IsPrefix types.now later → HasRowIf types.now whole → result ≡ is_wrong_bound_of (type_if names later whole) bound.now.untyped bound.now.value }
{
    match bound_number(bound) {
        None => bound.untyped.is_some() || bound.value.is_some(),
        Some(number) => is_past(types, whole, number),
    }
}

fn is_past(types: &TypeTable, whole: Option<TypeId>, number: u128) -> bool
    ensures { (names : ItemNames) (later : List Row) → IsPrefix types.now later → HasRowIf types.now whole → result ≡ the.is_past (type_if names later whole) (Some number) }
{
    match whole {
        Some(ty) => width_of_type(types, ty) < number,
        None => false,
    }
}

fn bounds_fall(from: Option<u128>, to: Option<u128>) -> bool
    ensures { result ≡ the.bounds_fall from to }
{
    match (from, to) {
        (Some(from), Some(to)) => to <= from,
        _ => false,
    }
}
