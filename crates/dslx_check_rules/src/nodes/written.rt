//! Written types from their parts.

ghost use Rattle.std.specs.Prelude.{◌≡◌, false, List, Some, IfOk, OnOk, OnErr};
ghost use Rattle.base.specs.Lists.Prefix.{IsPrefix};
ghost use Rattle.dslx_meaning.specs.Lists.{with_both};
ghost use Rattle.dslx_meaning.specs.declared.ty.DslxType as ty;
ghost use Rattle.dslx_meaning.specs.Rules.TypeRules as the;
ghost use Rattle.dslx_check_rules.specs.Interned.{HasRowIf, ItemNames, KeepsItems, type_if};
ghost use Rattle.dslx_check_rules.specs.declared.table.row.TypeRow.{TypeRow as Row};
ghost use Rattle.dslx_check_rules.specs.Nodes.Parts.{FromAll, FromNone, FromOne, FromPartAndCount};
ghost use Rattle.dslx_check_rules.specs.Nodes.Nodes.Written.{inside, tuple_type_of};

use crate::nodes::counts::zero_faults;
use crate::nodes::lists::{array_of, element_typings, tuple_of};
use crate::nodes::parts::{CountTyping, Spanned, settle};
use crate::{Faults, TypeId, TypeTable, Typing, is_unit, unit_faults};
use dslx_meaning::BitKind;
use std::alloc::{AllocError, Global};
use xb_span::Span;

/// Bits of a width that is written in their name, where no text writes 0.
pub fn bits_type(
    types: &mut TypeTable,
    span: Span,
    signed: bool,
    width: u128,
) -> Result<Typing, AllocError>
    ensures typed { IfOk result (λ j. FromNone (the.named_bits span signed width) types.new j) }
    ensures items { OnOk result (KeepsItems types.old types.new) }
    ensures grows { OnOk result (IsPrefix types.old types.new) }
    ensures stays { OnErr result (types.new ≡ types.old) }
{
    let ty = types.bits(BitKind { signed, width })?;
    let faults = zero_faults(span, Some(width));
    Ok(settle(types, span, Some(ty), faults, Some(0)))
}

/// `bool`
pub fn bool_type(types: &mut TypeTable, span: Span) -> Result<Typing, AllocError>
    ensures typed { IfOk result (λ j. FromNone (the.whole_type span (ty.Bits false 1)) types.new j) }
    ensures items { OnOk result (KeepsItems types.old types.new) }
    ensures grows { OnOk result (IsPrefix types.old types.new) }
    ensures stays { OnErr result (types.new ≡ types.old) }
{
    let ty = types.bits(BitKind {
        signed: false,
        width: 1,
    })?;
    Ok(settle(types, span, Some(ty), Faults::none(), Some(0)))
}

/// A type where `()` may not stand.
pub fn inner_type(types: &TypeTable, span: Span, part: Typing) -> Typing
    ensures { FromOne (inside span) types.now types.now part result }
{
    let own = unit_faults(types, span, part.ty);
    part.with(own)
}

/// A tuple of these types, none of which may be `()`.
pub fn tuple_type(
    alloc: Global,
    types: &mut TypeTable,
    span: Span,
    parts: &[Spanned],
) -> Result<Typing, AllocError>
    ensures typed { IfOk result (λ j. FromAll (tuple_type_of span) types.old types.new parts.now j) }
    ensures items { OnOk result (KeepsItems types.old types.new) }
    ensures grows { OnOk result (IsPrefix types.old types.new) }
    ensures stays { OnErr result (types.new ≡ types.old) }
{
    let all = element_typings(types, parts);
    let ty = tuple_of(alloc, types, parts)?;
    Ok(settle(types, span, ty, all.faults, Some(0)))
}

/// An array of so many of a type.
pub fn array_type(
    types: &mut TypeTable,
    span: Span,
    part: Typing,
    count: CountTyping,
) -> Result<Typing, AllocError>
    ensures typed { IfOk result (λ j. FromPartAndCount (the.array_of span) types.old types.new part count j) }
    ensures items { OnOk result (KeepsItems types.old types.new) }
    ensures grows { OnOk result (IsPrefix types.old types.new) }
    ensures stays { OnErr result (types.new ≡ types.old) }
{
    let faults = part.faults.and(count.typing.faults);
    let ty = counted(types, part.ty, count.count)?;
    Ok(settle(types, span, ty, faults, Some(0)))
}

/// The type of arrays of so many of these, where it is known how many.
fn counted(
    types: &mut TypeTable,
    part: Option<TypeId>,
    count: Option<u128>,
) -> Result<Option<TypeId>, AllocError>
    ensures is { IfOk result (λ t. (names : ItemNames) (later : List Row) → IsPrefix types.new later
        → type_if names later t ≡ with_both (type_if names later part) count (λ u n. Some (ty.Array u n))) }
    ensures there { IfOk result (λ t. HasRowIf types.new t) }
    ensures items { OnOk result (KeepsItems types.old types.new) }
    ensures grows { OnOk result (IsPrefix types.old types.new) }
    ensures stays { OnErr result (types.new ≡ types.old) }
{
    match count {
        Some(count) => array_of(types, part, count),
        None => Ok(None),
    }
}

/// A type where `()` is none.
pub fn unless_unit(types: &TypeTable, ty: Option<TypeId>) -> Option<TypeId>
    ensures is { (names : ItemNames) (later : List Row) → IsPrefix types.now later → HasRowIf types.now ty → type_if names later result ≡ the.unless_unit (type_if names later ty) }
    ensures there { HasRowIf types.now ty → HasRowIf types.now result }
{
    match ty {
        Some(ty) => if is_unit(types, ty) { None } else { Some(ty) },
        None => None,
    }
}
