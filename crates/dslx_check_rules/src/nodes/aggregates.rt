//! Numbers, and what takes values apart.

ghost use Rattle.std.specs.Prelude.{◌≡◌, List, Option, IfOk, OnOk, OnErr};
ghost use Rattle.base.specs.Lists.Prefix.{IsPrefix};
ghost use Rattle.dslx_meaning.specs.Lists.{and_then};
ghost use Rattle.dslx_meaning.specs.Rules.TypeEnvs.{no_token as no_token_at};
ghost use Rattle.dslx_meaning.specs.Rules.AggregateRules as the;
ghost use Rattle.dslx_meaning.specs.declared.ty.DslxType.{DslxType};
ghost use Rattle.dslx_check_rules.specs.Seen.{seen};
ghost use Rattle.dslx_check_rules.specs.Interned.{HasRow, HasRowIf, ItemNames, KeepsItems, type_at, type_if};
ghost use Rattle.dslx_check_rules.specs.declared.table.row.TypeRow.{TypeRow as Row};
ghost use Rattle.dslx_check_rules.specs.Nodes.Parts.{FromNone, FromOne, FromTwo};
ghost use Rattle.dslx_check_rules.specs.Nodes.Nodes.Aggregates as half;

use crate::nodes::parts::{settle, unlimit};
use crate::{
    Faults, TypeId, TypeTable, Typing, array_in, bits_in, holds_token, is_tuple, one_and,
    part_type, plus_size, rule, unless_array, unless_unsigned,
};
use dslx_meaning::{BitKind, DslxType, UntypedLiteral};
use dslx_values::operators::number_value;
use std::alloc::AllocError;
use xb_span::Span;

/// A value that stands alone: a token and a receive's pair don't stand there.
pub fn no_token(types: &TypeTable, span: Span, value: Typing) -> Typing
    ensures { FromOne (no_token_at span) types.now types.now value result }
{
    if is_token_held(types, value.ty) {
        Typing {
            ty: None,
            faults: value
                .faults
                .and(Faults::breaks(rule::EFFECT_STANDS_ALONE, span)),
            size: value.size,
        }
    } else {
        value
    }
}

/// Whether a part that has a type is a token or a receive's pair.
fn is_token_held(types: &TypeTable, ty: Option<TypeId>) -> bool
    ensures { (names : ItemNames) (later : List Row) → IsPrefix types.now later → HasRowIf types.now ty → result ≡ half.holds_token_if (type_if names later ty) }
{
    match ty {
        Some(ty) => holds_token(types, ty),
        None => false,
    }
}

/// `true` or `false`.
pub fn bool_node(types: &mut TypeTable, span: Span) -> Result<Typing, AllocError>
    ensures typed { IfOk result (λ j. FromNone (half.bool_node span) types.new j) }
    ensures items { OnOk result (KeepsItems types.old types.new) }
    ensures grows { OnOk result (IsPrefix types.old types.new) }
    ensures stays { OnErr result (types.new ≡ types.old) }
{
    let ty = types.bits(BitKind {
        signed: false,
        width: 1,
    })?;
    Ok(settle(types, span, Some(ty), Faults::none(), Some(1)))
}

/// A number without a type, where it has to have one. No limit applies.
pub fn untyped_number(span: Span) -> Typing
    ensures { (rows : List Row) → FromNone (half.untyped_number span) rows result }
{
    unlimit(None, Faults::breaks(rule::NUMBER_HAS_TYPE, span), Some(1))
}

/// A number of a type. No limit applies.
pub fn number_typing(types: &TypeTable, span: Span, number: UntypedLiteral, ty: Typing) -> Typing
    ensures { FromOne (half.number_of span number) types.now types.now ty result }
{
    let own = range_faults(types, span, ty.ty, number);
    unlimit(ty.ty, ty.faults.and(own), Some(1))
}

/// A number that doesn't lie in its type.
pub fn range_faults(
    types: &TypeTable,
    span: Span,
    ty: Option<TypeId>,
    number: UntypedLiteral,
) -> Faults
    ensures { (names : ItemNames) (later : List Row) → IsPrefix types.now later → HasRowIf types.now ty → result ≡ seen (the.range_faults span (type_if names later ty) number) }
{
    match ty {
        None => Faults::none(),
        Some(ty) => {
            let is_odd = !is_in_range(types, ty, number);
            Faults::breaks_if(is_odd, rule::NUMBER_FITS_TYPE, span)
        }
    }
}

/// Whether a type is bits and a number lies in their range.
pub fn is_in_range(types: &TypeTable, ty: TypeId, number: UntypedLiteral) -> bool
    ensures { (names : ItemNames) (later : List Row) → IsPrefix types.now later → HasRow types.now ty → result ≡ half.is_in_range (type_at names later ty) number }
{
    match bits_in(types, ty) {
        Some(kind) => is_in_bits(kind, number),
        None => false,
    }
}

/// Whether a number lies in the range of bits, which may be wider than words are.
fn is_in_bits(kind: BitKind, number: UntypedLiteral) -> bool
    ensures { result ≡ half.is_in_bits kind number }
{
    match number_value(&DslxType::Bits(kind.signed, kind.width), number) {
        Ok(value) => value.is_some(),
        Err(_) => true,
    }
}

/// An element of an array.
pub fn index_typing(types: &TypeTable, span: Span, whole: Typing, place: Typing) -> Typing
    ensures { FromTwo (half.index_of span) types.now types.now whole place result }
{
    let first = unless_array(types, rule::PART_IS_THERE, span, whole.ty);
    let second = unless_unsigned(types, rule::PART_IS_THERE, span, place.ty);
    let faults = whole.faults.and(place.faults).and(first).and(second);
    let ty = element_if(types, place.ty, whole.ty);
    settle(
        types,
        span,
        ty,
        faults,
        one_and(plus_size(whole.size, place.size)),
    )
}

/// The type of an array's elements, where its index has a type.
fn element_if(types: &TypeTable, place: Option<TypeId>, whole: Option<TypeId>) -> Option<TypeId>
    ensures is { (names : ItemNames) (later : List Row) → IsPrefix types.now later → HasRowIf types.now whole
        → type_if names later result ≡ and_then (type_if names later place) (λ k. the.element_type (and_then (type_if names later whole) the.array_in)) }
    ensures there { HasRowIf types.now whole → HasRowIf types.now result }
{
    match (place, whole) {
        (Some(_), Some(whole)) => match array_in(types, whole) {
            Some((part, _)) => Some(part),
            None => None,
        },
        _ => None,
    }
}

/// A part of a tuple by its number, which is at `at`: a receive's pair may be taken apart so, by 0 and 1.
pub fn tuple_element_typing(
    types: &TypeTable,
    span: Span,
    at: Span,
    place: u128,
    inner: Typing,
) -> Typing
    ensures { FromOne (half.tuple_element_of span at place) types.now types.now inner result }
{
    let whole = taken_apart(types, at, place, inner);
    let ty = part_if(types, whole.ty, place);
    let own = lacks(span, whole.ty, ty);
    settle(types, span, ty, whole.faults.and(own), one_and(whole.size))
}

/// A value that has a type has no such part.
pub(crate) fn lacks(span: Span, whole: Option<TypeId>, part: Option<TypeId>) -> Faults
    ensures { (names : ItemNames) (later : List Row) (part_of : DslxType → Option DslxType) → type_if names later part ≡ and_then (type_if names later whole) part_of
        → result ≡ seen (half.lacks part_of span (type_if names later whole)) }
{
    match (whole, part) {
        (Some(_), None) => Faults::breaks(rule::PART_IS_THERE, span),
        _ => Faults::none(),
    }
}

/// What is taken apart by a number.
fn taken_apart(types: &TypeTable, at: Span, place: u128, inner: Typing) -> Typing
    ensures { FromOne (half.taken_apart place at) types.now types.now inner result }
{
    if place < 2 && is_some_tuple(types, inner.ty) {
        inner
    } else {
        no_token(types, at, inner)
    }
}

/// Whether a part that has a type is a tuple.
fn is_some_tuple(types: &TypeTable, ty: Option<TypeId>) -> bool
    ensures { (names : ItemNames) (later : List Row) → IsPrefix types.now later → HasRowIf types.now ty → result ≡ half.is_tuple_if (type_if names later ty) }
{
    match ty {
        Some(ty) => is_tuple(types, ty),
        None => false,
    }
}

/// The type of a part of a tuple, if there is such a part.
fn part_if(types: &TypeTable, ty: Option<TypeId>, place: u128) -> Option<TypeId>
    ensures is { (names : ItemNames) (later : List Row) → IsPrefix types.now later → HasRowIf types.now ty
        → type_if names later result ≡ and_then (type_if names later ty) (λ t. the.part_type t place) }
    ensures there { HasRowIf types.now ty → HasRowIf types.now result }
{
    match ty {
        Some(ty) => part_type(types, ty, place),
        None => None,
    }
}
