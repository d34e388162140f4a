//! Whether a value is of a type that is in a table.

ghost use Rattle.std.specs.Prelude.{◌≡◌, List, map, true};
ghost use Rattle.std.specs.Str.{bytes_eq};
ghost use Rattle.base.specs.Lists.Prefix.{IsPrefix};
ghost use Rattle.dslx_meaning.specs.Items.{name_of_field};
ghost use Rattle.dslx_meaning.specs.Lists.{pairwise};
ghost use Rattle.dslx_meaning.specs.Types.{same_bool};
ghost use Rattle.dslx_meaning.specs.Values.{array_type, type_of_value};
ghost use Rattle.dslx_meaning.specs.declared.ty.DslxType as dslx;
ghost use Rattle.dslx_check_rules.specs.declared.table.row.TypeRow.{TypeRow as Row};
ghost use Rattle.dslx_check_rules.specs.Interned.{row_type, type_at, types_in};
ghost use Rattle.dslx_check_rules.specs.Rows.{same_kind as is_same_kind};
ghost use Rattle.dslx_check_facts.specs.Known.{item_names};
ghost use Rattle.dslx_check_facts.specs.Inner.TypedValues.{IsStructNamed, RowIs};

use crate::facts::Facts;
use base::texts::Name;
use dslx_check_rules::{TypeId, TypeRow, TypeTable};
use dslx_meaning::{BitKind, DslxValue};
use dslx_tree::Field;
use xb_bits::Bits;

/// Whether the type is that of the value. It says so of no array without elements.
#[cycle(gives)]
pub fn gives_type(f: &Facts, types: &TypeTable, ty: TypeId, value: &DslxValue) -> bool
    ensures is { result ≡ true → (later : List Row) → IsPrefix types.now later → type_at (item_names f.now) later ty ≡ type_of_value value.now }
{
    match types.row(ty) {
        Some(row) => gives_row(f, types, row, value),
        None => false,
    }
}

#[cycle(gives)]
fn gives_row(f: &Facts, types: &TypeTable, row: &TypeRow, value: &DslxValue) -> bool
    ensures { result ≡ true → RowIs f.now types.now row.now (type_of_value value.now) }
{
    match value {
        DslxValue::Bits(signed, word) => is_bits(row, kind_of(*signed, *word)),
        DslxValue::Tuple(parts) => gives_tuple(f, types, row, parts.as_slice()),
        DslxValue::Array(parts) => gives_array(f, types, row, parts.as_slice()),
        DslxValue::Struct(name, fields, parts) => {
            let names = fields.as_slice();
            let values = parts.as_slice();
            gives_struct(f, types, row, name, names, values)
        }
        DslxValue::Enum(name, signed, word) => is_enum(f, row, name, kind_of(*signed, *word)),
        DslxValue::Token => is_token(row),
    }
}

#[cycle(gives)]
fn gives_tuple(f: &Facts, types: &TypeTable, row: &TypeRow, values: &[DslxValue]) -> bool
    ensures { result ≡ true → RowIs f.now types.now row.now (dslx.Tuple (map type_of_value values.now)) }
{
    match row {
        TypeRow::Tuple(parts) => give_types(f, types, parts.as_slice(), values),
        _ => false,
    }
}

#[cycle(gives)]
fn gives_array(f: &Facts, types: &TypeTable, row: &TypeRow, elements: &[DslxValue]) -> bool
    ensures { result ≡ true → RowIs f.now types.now row.now (array_type (map type_of_value elements.now)) }
{
    match elements {
        [] => false,
        [first, ..] => gives_repeated(f, types, row, first, elements.len() as u128),
    }
}

/// Whether it is an array of so many, of which this is the first.
#[cycle(gives)]
fn gives_repeated(
    f: &Facts,
    types: &TypeTable,
    row: &TypeRow,
    first: &DslxValue,
    count: u128,
) -> bool
    ensures { result ≡ true → RowIs f.now types.now row.now (dslx.Array (type_of_value first.now) count) }
{
    match row {
        TypeRow::Array(part, size) => {
            if *size == count {
                gives_type(f, types, *part, first)
            } else {
                false
            }
        }
        _ => false,
    }
}

#[cycle(gives)]
fn gives_struct(
    f: &Facts,
    types: &TypeTable,
    row: &TypeRow,
    name: &Name,
    fields: &[Name],
    values: &[DslxValue],
) -> bool
    ensures { result ≡ true → RowIs f.now types.now row.now (dslx.Struct name.now fields.now (map type_of_value values.now)) }
{
    match row {
        TypeRow::Struct(item, parts) => {
            if is_structure(f, *item, name, fields) {
                give_types(f, types, parts.as_slice(), values)
            } else {
                false
            }
        }
        _ => false,
    }
}

/// Whether each of these types is that of its value, and there are as many.
#[cycle(gives)]
fn give_types(f: &Facts, types: &TypeTable, parts: &[TypeId], values: &[DslxValue]) -> bool
    ensures { result ≡ true → (later : List Row) → IsPrefix types.now later → map (type_at (item_names f.now) later) parts.now ≡ map type_of_value values.now }
{
    if parts.len() != values.len() {
        return false;
    }
    'values: for i in 0..values.len() {
        if !gives_type(f, types, parts[i], &values[i]) {
            return false;
        }
    }
    true
}

fn kind_of(signed: bool, word: Bits) -> BitKind
    ensures { result ≡ record { signed = signed; width = word.width } }
{
    BitKind {
        signed,
        width: word.width() as u128,
    }
}

fn is_bits(row: &TypeRow, kind: BitKind) -> bool
    ensures { result ≡ true → row.now ≡ Row.Bits kind }
{
    match row {
        TypeRow::Bits(own) => is_kind(*own, kind),
        _ => false,
    }
}

fn is_token(row: &TypeRow) -> bool
    ensures { result ≡ true → row.now ≡ Row.Token }
{
    match row {
        TypeRow::Token => true,
        _ => false,
    }
}

fn is_enum(f: &Facts, row: &TypeRow, name: &Name, kind: BitKind) -> bool
    ensures { result ≡ true → (rows : List Row) → RowIs f.now rows row.now (dslx.Enum name.now kind.signed kind.width) }
{
    match row {
        TypeRow::Enum(item, base) => is_choice(f, *item, name) && is_kind(*base, kind),
        _ => false,
    }
}

/// Whether the item of this number is the enum that the name means.
fn is_choice(f: &Facts, item: u32, name: &Name) -> bool
    ensures { result ≡ true → (item_names f.now).item item ≡ name.now }
{
    match f.choice(name) {
        Some((meant, _)) => meant == item,
        None => false,
    }
}

/// Whether the item of this number is the struct that the name means, and it has these fields.
fn is_structure(f: &Facts, item: u32, name: &Name, fields: &[Name]) -> bool
    ensures { result ≡ true → IsStructNamed f.now item name.now fields.now }
{
    match f.structure(name) {
        Some((meant, structure)) => {
            if meant == item {
                are_fields(fields, structure.fields.as_slice())
            } else {
                false
            }
        }
        None => false,
    }
}

fn are_fields(names: &[Name], fields: &[Field]) -> bool
    ensures { result ≡ pairwise bytes_eq names.now (map name_of_field fields.now) }
{
    if names.len() != fields.len() {
        return false;
    }
    'fields: for i in 0..names.len() {
        if names[i] != fields[i].name.name {
            return false;
        }
    }
    true
}

/// Whether the two have one sign and one width.
fn is_kind(a: BitKind, b: BitKind) -> bool
    ensures { result ≡ is_same_kind a b }
{
    is_sign(a.signed, b.signed) && a.width == b.width
}

fn is_sign(a: bool, b: bool) -> bool
    ensures { result ≡ same_bool a b }
{
    if a { b } else { !b }
}
