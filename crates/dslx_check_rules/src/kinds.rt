//! What kind of type it is. Each call is its definition at the type of the number, in any later table.

ghost use Rattle.std.specs.Prelude.{◌≡◌, List, IfSome, slice_get};
ghost use Rattle.std.specs.Option.{option_map};
ghost use Rattle.base.specs.Lists.Prefix.{IsPrefix};
ghost use Rattle.dslx_meaning.specs.Lists.{and_then};
ghost use Rattle.dslx_meaning.specs.Types as the;
ghost use Rattle.dslx_meaning.specs.Rules.ConstantRules as constants;
ghost use Rattle.dslx_meaning.specs.Rules.OperatorRules as operators;
ghost use Rattle.dslx_meaning.specs.Rules.AggregateRules as aggregates;
ghost use Rattle.dslx_meaning.specs.declared.ty.DslxType.{out-DslxType};
ghost use Rattle.dslx_check_rules.specs.declared.table.row.TypeRow.{TypeRow as Row};
ghost use Rattle.dslx_check_rules.specs.Inner.Kinds as rows;
ghost use Rattle.dslx_check_rules.specs.Interned.{HasRow, HasRowIf, ItemNames, type_at, type_if};

use crate::table::{TypeId, TypeRow, TypeTable};
use dslx_meaning::BitKind;

/// The sign and the width of bits, which an enum is not.
pub fn bits_in(types: &TypeTable, ty: TypeId) -> Option<BitKind>
    ensures { (names : ItemNames) (later : List Row) → IsPrefix types.now later → HasRow types.now ty → result ≡ the.bits_in (type_at names later ty) }
{
    match types.row(ty) {
        Some(row) => bits_of_row(row),
        None => None,
    }
}

fn bits_of_row(row: &TypeRow) -> Option<BitKind>
    ensures { result ≡ rows.bits_of_row row.now }
{
    match row {
        TypeRow::Bits(kind) => Some(*kind),
        _ => None,
    }
}

/// The sign and the width of bits, or of the base of an enum.
pub fn bits_or_enum(types: &TypeTable, ty: TypeId) -> Option<BitKind>
    ensures { (names : ItemNames) (later : List Row) → IsPrefix types.now later → HasRow types.now ty → result ≡ the.bits_or_enum (type_at names later ty) }
{
    match types.row(ty) {
        Some(row) => base_of_row(row),
        None => None,
    }
}

fn base_of_row(row: &TypeRow) -> Option<BitKind>
    ensures { result ≡ rows.base_of_row row.now }
{
    match row {
        TypeRow::Bits(kind) => Some(*kind),
        TypeRow::Enum(_, base) => Some(*base),
        _ => None,
    }
}

/// Whether it is bits.
pub fn is_bits(types: &TypeTable, ty: TypeId) -> bool
    ensures { (names : ItemNames) (later : List Row) → IsPrefix types.now later → HasRow types.now ty → result ≡ operators.is_bits (type_at names later ty) }
{
    match bits_in(types, ty) {
        Some(_) => true,
        None => false,
    }
}

/// Whether it is bits or an enum.
pub fn is_bits_or_enum(types: &TypeTable, ty: TypeId) -> bool
    ensures { (names : ItemNames) (later : List Row) → IsPrefix types.now later → HasRow types.now ty → result ≡ operators.is_bits_or_enum (type_at names later ty) }
{
    match bits_or_enum(types, ty) {
        Some(_) => true,
        None => false,
    }
}

/// Whether it is bits without a sign.
pub fn is_unsigned(types: &TypeTable, ty: TypeId) -> bool
    ensures { (names : ItemNames) (later : List Row) → IsPrefix types.now later → HasRow types.now ty → result ≡ constants.is_unsigned (type_at names later ty) }
{
    match bits_in(types, ty) {
        Some(kind) => !kind.signed,
        None => false,
    }
}

/// Whether it is `bool`.
pub fn is_bool(types: &TypeTable, ty: TypeId) -> bool
    ensures { (names : ItemNames) (later : List Row) → IsPrefix types.now later → HasRow types.now ty → result ≡ operators.is_bool (type_at names later ty) }
{
    match bits_in(types, ty) {
        Some(kind) => is_one_bit(kind),
        None => false,
    }
}

fn is_one_bit(kind: BitKind) -> bool
    ensures { result ≡ rows.is_one_bit kind }
{
    !kind.signed && kind.width == 1
}

/// The width of bits; 0 of any other type.
pub fn width_of_type(types: &TypeTable, ty: TypeId) -> u128
    ensures { (names : ItemNames) (later : List Row) → IsPrefix types.now later → HasRow types.now ty → result ≡ operators.width_of_type (type_at names later ty) }
{
    match bits_in(types, ty) {
        Some(kind) => kind.width,
        None => 0,
    }
}

/// Whether it is `()`.
pub fn is_unit(types: &TypeTable, ty: TypeId) -> bool
    ensures { (names : ItemNames) (later : List Row) → IsPrefix types.now later → HasRow types.now ty → result ≡ the.is_unit (type_at names later ty) }
{
    match types.row(ty) {
        Some(row) => is_unit_row(row),
        None => false,
    }
}

fn is_unit_row(row: &TypeRow) -> bool
    ensures { result ≡ rows.is_unit_row row.now }
{
    match row {
        TypeRow::Tuple(parts) => parts.len() == 0,
        _ => false,
    }
}

/// Whether it is a tuple.
pub fn is_tuple(types: &TypeTable, ty: TypeId) -> bool
    ensures { (names : ItemNames) (later : List Row) → IsPrefix types.now later → HasRow types.now ty → result ≡ aggregates.is_some_tuple (out-DslxType (type_at names later ty)) }
{
    match types.row(ty) {
        Some(row) => is_tuple_row(row),
        None => false,
    }
}

fn is_tuple_row(row: &TypeRow) -> bool
    ensures { result ≡ rows.is_tuple_row row.now }
{
    match row {
        TypeRow::Tuple(_) => true,
        _ => false,
    }
}

/// The type of the part of a tuple at this place.
pub fn part_type(types: &TypeTable, ty: TypeId, at: u128) -> Option<TypeId>
    ensures is { (names : ItemNames) (later : List Row) → IsPrefix types.now later → HasRow types.now ty
        → type_if names later result ≡ aggregates.part_type (type_at names later ty) at }
    ensures there { HasRow types.now ty → HasRowIf types.now result }
{
    match types.row(ty) {
        Some(row) => part_of_row(row, at),
        None => None,
    }
}

fn part_of_row(row: &TypeRow, at: u128) -> Option<TypeId>
    ensures { result ≡ rows.part_of_row row.now at }
{
    match row {
        TypeRow::Tuple(parts) => id_at(parts.as_slice(), at),
        _ => None,
    }
}

fn id_at(parts: &[TypeId], at: u128) -> Option<TypeId>
    ensures { result ≡ slice_get parts.now at }
{
    if at < parts.len() as u128 {
        Some(parts[at as usize])
    } else {
        None
    }
}

/// The type of an array's elements, and their number.
pub fn array_in(types: &TypeTable, ty: TypeId) -> Option<(TypeId, u128)>
    ensures is { (names : ItemNames) (later : List Row) → IsPrefix types.now later → HasRow types.now ty
        → option_map (λ p. (type_at names later p.0, p.1)) result ≡ aggregates.array_in (type_at names later ty) }
    ensures there { HasRow types.now ty → IfSome result (λ p. HasRow types.now p.0) }
{
    match types.row(ty) {
        Some(row) => array_of_row(row),
        None => None,
    }
}

fn array_of_row(row: &TypeRow) -> Option<(TypeId, u128)>
    ensures { result ≡ rows.array_of_row row.now }
{
    match row {
        TypeRow::Array(part, count) => Some((*part, *count)),
        _ => None,
    }
}

/// Whether it is an array.
pub fn is_array(types: &TypeTable, ty: TypeId) -> bool
    ensures { (names : ItemNames) (later : List Row) → IsPrefix types.now later → HasRow types.now ty → result ≡ aggregates.is_array (type_at names later ty) }
{
    match array_in(types, ty) {
        Some(_) => true,
        None => false,
    }
}

/// The type of an array's elements.
pub fn element_type(types: &TypeTable, ty: Option<TypeId>) -> Option<TypeId>
    ensures is { (names : ItemNames) (later : List Row) → IsPrefix types.now later → HasRowIf types.now ty
        → type_if names later result ≡ aggregates.element_type (and_then (type_if names later ty) aggregates.array_in) }
    ensures there { HasRowIf types.now ty → HasRowIf types.now result }
{
    match ty {
        Some(ty) => match array_in(types, ty) {
            Some((part, _)) => Some(part),
            None => None,
        },
        None => None,
    }
}

/// Whether it is a token.
pub fn is_token(types: &TypeTable, ty: TypeId) -> bool
    ensures { (names : ItemNames) (later : List Row) → IsPrefix types.now later → HasRow types.now ty → result ≡ the.is_token_type (type_at names later ty) }
{
    types.measures(ty).is_token
}

/// Whether it is a token, or a receive's pair.
pub fn holds_token(types: &TypeTable, ty: TypeId) -> bool
    ensures { (names : ItemNames) (later : List Row) → IsPrefix types.now later → HasRow types.now ty → result ≡ the.holds_token (type_at names later ty) }
{
    match part_type(types, ty, 0) {
        Some(first) => is_token(types, first),
        None => is_token(types, ty),
    }
}
