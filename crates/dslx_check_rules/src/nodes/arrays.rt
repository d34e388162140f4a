//! Tuples and arrays from their elements.

ghost use Rattle.std.specs.Prelude.{◌≡◌, List, IfOk, OnOk, OnErr, map};
ghost use Rattle.base.specs.Lists.Prefix.{IsPrefix};
ghost use Rattle.dslx_meaning.specs.Rules.AggregateRules as the;
ghost use Rattle.dslx_meaning.specs.Rules.TypeEnvs.{types_of};
ghost use Rattle.dslx_check_rules.specs.Seen.{seen};
ghost use Rattle.dslx_check_rules.specs.Interned.{AreDistinct, HasRowIf, ItemNames, KeepsItems, type_if};
ghost use Rattle.dslx_check_rules.specs.declared.table.row.TypeRow.{TypeRow as Row};
ghost use Rattle.dslx_check_rules.specs.Nodes.Parts.{ArePlaced, FromAll, IsPart, IsPlaced, Pairs, Placed, judgements};
ghost use Rattle.dslx_check_rules.specs.Nodes.Nodes.Lists.{IsList, fitted as fitted_to};
ghost use Rattle.dslx_check_rules.specs.Nodes.Nodes.Arrays as half;

use crate::nodes::aggregates::range_faults;
use crate::nodes::lists::{ListTyping, array_of, element_typings, tuple_of};
use crate::nodes::parts::{Spanned, either, settle};
use crate::{
    Faults, TypeId, TypeTable, Typing, array_in, element_type, one_and, rule, wanted_faults,
};
use dslx_meaning::UntypedLiteral;
use std::alloc::{AllocError, Global};
use xb_span::Span;

/// An element of an array that has a type: a number without one, or a value.
#[derive(Clone, Copy)]
pub enum Element {
    Untyped(Span, UntypedLiteral),
    Value(Spanned),
}

/// A tuple of these, none of which may be `()`.
pub fn tuple_typing(
    alloc: Global,
    types: &mut TypeTable,
    span: Span,
    parts: &[Spanned],
) -> Result<Typing, AllocError>
    ensures typed { IfOk result (λ j. FromAll (half.tuple_of span) types.old types.new parts.now j) }
    ensures items { OnOk result (KeepsItems types.old types.new) }
    ensures grows { OnOk result (IsPrefix types.old types.new) }
    ensures stays { OnErr result (types.new ≡ types.old) }
{
    let all = element_typings(types, parts);
    let ty = tuple_of(alloc, types, parts)?;
    let size = one_and(all.size);
    Ok(settle(types, span, ty, all.faults, size))
}

/// An array without a type: the first element decides.
pub fn untyped_array_typing(
    types: &mut TypeTable,
    span: Span,
    elements: &[Spanned],
    dots: bool,
) -> Result<Typing, AllocError>
    ensures typed { IfOk result (λ j. FromAll (half.untyped_array_of span dots) types.old types.new elements.now j) }
    ensures items { OnOk result (KeepsItems types.old types.new) }
    ensures grows { OnOk result (IsPrefix types.old types.new) }
    ensures stays { OnErr result (types.new ≡ types.old) }
{
    let all = element_typings(types, elements);
    let first = first_type(elements);
    let unlike = unlike_faults(types, first, elements);
    let is_odd = either(dots, elements.is_empty());
    let own = Faults::breaks_if(is_odd, rule::ARRAY_ELEMENT_COUNT, span);
    let part = all.when_all(first);
    let count = elements.len() as u128;
    let ty = array_of(types, part, count)?;
    let parts = all.faults.and(unlike);
    let faults = parts.and(own);
    let size = one_and(all.size);
    Ok(settle(types, span, ty, faults, size))
}

/// The type of the first element.
fn first_type(elements: &[Spanned]) -> Option<TypeId>
    ensures is { (names : ItemNames) (rows later : List Row) (xs : List Placed) → ArePlaced names rows later elements.now xs
        → type_if names later result ≡ the.first_type_of (types_of (judgements xs)) }
    ensures there { (names : ItemNames) (rows later : List Row) (xs : List Placed) → ArePlaced names rows later elements.now xs → HasRowIf rows result }
{
    match elements {
        [first, ..] => first.typing.ty,
        [] => None,
    }
}

/// Parts of another type than this.
fn unlike_faults(types: &TypeTable, ty: Option<TypeId>, parts: &[Spanned]) -> Faults
    ensures { (names : ItemNames) (later : List Row) (xs : List Placed) → AreDistinct names → IsPrefix types.now later → HasRowIf types.now ty → ArePlaced names types.now later parts.now xs
        → result ≡ seen (half.unlike (type_if names later ty) xs) }
{
    let mut faults = Faults::none();
    'parts: for part in parts {
        let own = wanted_faults(types, part.span, ty, part.typing.ty);
        faults = faults.and(own);
    }
    faults
}

/// An array of a type that is written.
pub fn typed_array_typing(
    types: &TypeTable,
    span: Span,
    written: Typing,
    elements: &[Element],
    dots: bool,
) -> Typing
    ensures { half.FromElements (half.typed_array_of span dots) types.now written elements.now result }
{
    let part = element_type(types, written.ty);
    let all = all_elements(types, part, elements);
    let size = array_size(types, written.ty);
    let count = elements.len() as u128;
    let own = count_faults(span, written.ty, size, count, dots);
    let parts = written.faults.and(all.faults);
    let faults = parts.and(own);
    let ty = all.when_all(written.ty);
    let nodes = one_and(all.size);
    settle(types, span, ty, faults, nodes)
}

/// The size of an array's type.
fn array_size(types: &TypeTable, ty: Option<TypeId>) -> Option<u128>
    ensures { (names : ItemNames) (later : List Row) → IsPrefix types.now later → HasRowIf types.now ty → result ≡ half.size_in (type_if names later ty) }
{
    match ty {
        Some(ty) => match array_in(types, ty) {
            Some((_, size)) => Some(size),
            None => None,
        },
        None => None,
    }
}

/// The type is no array, or has another size.
fn count_faults(
    span: Span,
    ty: Option<TypeId>,
    size: Option<u128>,
    count: u128,
    dots: bool,
) -> Faults
    ensures { (names : ItemNames) (later : List Row) → size ≡ half.size_in (type_if names later ty)
        → result ≡ seen (half.count_faults span (type_if names later ty) count dots) }
{
    match (ty, size) {
        (None, _) => Faults::none(),
        (Some(_), None) => Faults::breaks(rule::VALUE_HAS_ITS_TYPE, span),
        (Some(_), Some(size)) => {
            let is_odd = is_count_wrong(dots, size, count);
            Faults::breaks_if(is_odd, rule::ARRAY_ELEMENT_COUNT, span)
        }
    }
}

/// More elements than the size, or fewer without three dots, which repeat the last one.
fn is_count_wrong(dots: bool, size: u128, count: u128) -> bool
    ensures { result ≡ the.count_wrong dots size count }
{
    if dots {
        count == 0 || size < count
    } else {
        size != count
    }
}

/// What these elements of an array of this type come to together.
fn all_elements(types: &TypeTable, part: Option<TypeId>, elements: &[Element]) -> ListTyping
    ensures { (names : ItemNames) (later : List Row) (xs : List half.ElementSeen) → AreDistinct names → IsPrefix types.now later → HasRowIf types.now part
        → Pairs (half.IsElement names types.now later) elements.now xs → IsList result (map (half.element_seen (type_if names later part)) xs) }
{
    let mut all = ListTyping::none();
    'elements: for element in elements {
        let next = element_typing(types, part, *element);
        all = all.and(next);
    }
    all
}

/// An element of an array of this type.
fn element_typing(types: &TypeTable, part: Option<TypeId>, element: Element) -> Typing
    ensures { (names : ItemNames) (later : List Row) (x : half.ElementSeen) → AreDistinct names → IsPrefix types.now later → HasRowIf types.now part
        → half.IsElement names types.now later element x → IsPart names types.now later result (half.element_seen (type_if names later part) x) }
{
    match element {
        Element::Untyped(span, number) => Typing {
            ty: part,
            faults: range_faults(types, span, part, number),
            size: Some(1),
        },
        Element::Value(value) => fitted(types, part, value),
    }
}

/// A part of which this type is wanted.
pub(crate) fn fitted(types: &TypeTable, wanted: Option<TypeId>, part: Spanned) -> Typing
    ensures { (names : ItemNames) (later : List Row) (x : Placed) → AreDistinct names → IsPrefix types.now later → HasRowIf types.now wanted
        → IsPlaced names types.now later part x → IsPart names types.now later result (fitted_to (type_if names later wanted) x) }
{
    let own = wanted_faults(types, part.span, wanted, part.typing.ty);
    part.typing.with(own)
}
