//! Numbers in the ranges of types.

ghost use Rattle.std.specs.Prelude.{◌≡◌, List, Some, IfOk};
ghost use Rattle.base.specs.Lists.Prefix.{IsPrefix};
ghost use Rattle.dslx_meaning.specs.Lists.{where_true};
ghost use Rattle.dslx_meaning.specs.Operators as the;
ghost use Rattle.dslx_meaning.specs.Rules.AggregateRules.{is_narrow, untyped_value as the_value};
ghost use Rattle.dslx_check_rules.specs.declared.table.row.TypeRow.{TypeRow};
ghost use Rattle.dslx_check_rules.specs.Interned.{HasRow, ItemNames, type_at};

use dslx_check_rules::{TypeId, TypeTable, bits_in};
use dslx_meaning::{BitKind, DslxType, DslxValue, UntypedLiteral};
use dslx_values::operators::number_value;
use std::alloc::AllocError;

const MOST_BITS: u128 = 128;

/// The value of a number whose type stands elsewhere, if it lies in its range. In a type past the limit on widths it has none.
pub fn untyped_value(
    types: &TypeTable,
    ty: TypeId,
    number: UntypedLiteral,
) -> Result<Option<DslxValue>, AllocError>
    ensures { IfOk result (λ v. (names : ItemNames) (later : List TypeRow) → IsPrefix types.now later → HasRow types.now ty → v ≡ the_value (type_at names later ty) number) }
{
    match bits_in(types, ty) {
        None => Ok(None),
        Some(kind) => narrow_number(kind, number),
    }
}

fn narrow_number(kind: BitKind, number: UntypedLiteral) -> Result<Option<DslxValue>, AllocError>
    ensures { IfOk result (λ v. v ≡ where_true (is_narrow (Some kind)) (the.number_in (Some kind) number)) }
{
    if kind.width <= MOST_BITS {
        number_of_kind(kind, number)
    } else {
        Ok(None)
    }
}

/// The number as a value of a type that has values, if it lies in its range.
pub fn number_in(
    types: &TypeTable,
    ty: TypeId,
    number: UntypedLiteral,
) -> Result<Option<DslxValue>, AllocError>
    ensures { IfOk result (λ v. (names : ItemNames) (later : List TypeRow) → IsPrefix types.now later → HasRow types.now ty → v ≡ the.number_value (type_at names later ty) number) }
{
    match bits_in(types, ty) {
        None => Ok(None),
        Some(kind) => number_of_kind(kind, number),
    }
}

fn number_of_kind(kind: BitKind, number: UntypedLiteral) -> Result<Option<DslxValue>, AllocError>
    ensures { IfOk result (λ v. v ≡ the.number_in (Some kind) number) }
{
    match number_value(&DslxType::Bits(kind.signed, kind.width), number) {
        Ok(value) => Ok(value),
        Err(_) => Err(AllocError),
    }
}
