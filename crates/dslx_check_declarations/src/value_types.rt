//! The types of values, by their numbers in a table.

ghost use Rattle.std.specs.Prelude.{◌≡◌, ℕ, List, IfOk, map, suc, length, true};
ghost use Rattle.std.specs.List.{All};
ghost use Rattle.std.specs.Str.{bytes_eq};
ghost use Rattle.base.specs.Lists.Prefix.{IsPrefix};
ghost use Rattle.dslx_meaning.specs.Items.{name_of_field};
ghost use Rattle.dslx_meaning.specs.Lists.{pairwise};
ghost use Rattle.dslx_meaning.specs.Types.{same_bool, unit_type as the_unit};
ghost use Rattle.dslx_meaning.specs.Values.{array_type, type_of_value};
ghost use Rattle.dslx_meaning.specs.declared.ty.DslxType as dslx;
ghost use Rattle.dslx_check_rules.specs.declared.table.row.TypeRow.{TypeRow as Row};
ghost use Rattle.dslx_check_rules.specs.Interned.{HasRow, ItemNames, type_at};
ghost use Rattle.dslx_check_rules.specs.Rows.{same_id, same_kind as is_same_kind};
ghost use Rattle.dslx_check_facts.specs.Known.{item_names, named_type_at};
ghost use Rattle.dslx_check_declarations.specs.Rows.{is_enum_of, is_struct_of};
ghost use Rattle.dslx_check_declarations.specs.Types.{AreTypesOf, IsTypeOf, IsTypeThere};

use base::texts::Name;
use dslx_check_facts::Facts;
use dslx_check_rules::{TypeId, TypeRow, TypeTable};
use dslx_meaning::{BitKind, DslxValue};
use dslx_tree::Field;
use std::alloc::{AllocError, Global};
use xb_bits::Bits;
use xb_value::Seq;

/// The type of a value. One of a struct or an enum that isn't known is refused as for want of memory.
#[cycle(value_type)]
pub fn value_type(f: &Facts, types: &mut TypeTable, value: &DslxValue) -> Result<TypeId, AllocError>
    ensures { IfOk result (λ t. IsTypeOf (item_names f.now) types.old types.new t (type_of_value value.now)) }
{
    match value {
        DslxValue::Bits(signed, word) => bits_type(types, *signed, *word),
        DslxValue::Tuple(parts) => {
            let items = parts.as_slice();
            tuple_type(f, types, items)
        }
        DslxValue::Array(parts) => {
            let elements = parts.as_slice();
            elements_type(f, types, elements)
        }
        DslxValue::Struct(name, fields, parts) => {
            let names = fields.as_slice();
            let values = parts.as_slice();
            struct_type(f, types, name, names, values)
        }
        DslxValue::Enum(name, signed, word) => enum_type(f, types, name, *signed, *word),
        DslxValue::Token => token_type(types),
    }
}

/// The types of these values.
#[cycle(value_type)]
fn value_types(
    f: &Facts,
    types: &mut TypeTable,
    values: &[DslxValue],
) -> Result<Vec<TypeId>, AllocError>
    ensures { IfOk result (λ ts. AreTypesOf (item_names f.now) types.old types.new ts.items (map type_of_value values.now)) }
{
    let mut all = Vec::new(f.alloc);
    'values: for value in values {
        let ty = value_type(f, types, value)?;
        all.push(ty)?;
    }
    Ok(all)
}

/// The type of a tuple of these.
#[cycle(value_type)]
fn tuple_type(f: &Facts, types: &mut TypeTable, parts: &[DslxValue]) -> Result<TypeId, AllocError>
    ensures { IfOk result (λ t. IsTypeOf (item_names f.now) types.old types.new t (dslx.Tuple (map type_of_value parts.now))) }
{
    let all = value_types(f, types, parts)?;
    let ty = types.tuple(Seq::from_vec(all))?;
    Ok(ty)
}

/// The type of an array of these; that of one without elements is `()`.
#[cycle(value_type)]
fn elements_type(
    f: &Facts,
    types: &mut TypeTable,
    elements: &[DslxValue],
) -> Result<TypeId, AllocError>
    ensures { IfOk result (λ t. IsTypeOf (item_names f.now) types.old types.new t (array_type (map type_of_value elements.now))) }
{
    match elements {
        [] => unit_type(types, f.alloc),
        [first, ..] => repeated_type(f, types, first, elements.len() as u128),
    }
}

/// The type of an array of so many, of which this is the first.
#[cycle(value_type)]
fn repeated_type(
    f: &Facts,
    types: &mut TypeTable,
    first: &DslxValue,
    count: u128,
) -> Result<TypeId, AllocError>
    ensures { IfOk result (λ t. IsTypeOf (item_names f.now) types.old types.new t (dslx.Array (type_of_value first.now) count)) }
{
    let part = value_type(f, types, first)?;
    let ty = types.array(part, count)?;
    Ok(ty)
}

/// The type of a struct of this name with these fields, which have these values.
#[cycle(value_type)]
fn struct_type(
    f: &Facts,
    types: &mut TypeTable,
    name: &Name,
    fields: &[Name],
    parts: &[DslxValue],
) -> Result<TypeId, AllocError>
    ensures { IfOk result (λ t. IsTypeOf (item_names f.now) types.old types.new t (dslx.Struct name.now fields.now (map type_of_value parts.now))) }
{
    let all = value_types(f, types, parts)?;
    struct_there(f, types, name, fields, all.as_slice())
}

fn bits_type(types: &mut TypeTable, signed: bool, word: Bits) -> Result<TypeId, AllocError>
    ensures { IfOk result (λ t. (names : ItemNames) → IsTypeOf names types.old types.new t (dslx.Bits signed word.width)) }
{
    let kind = kind_of(signed, word);
    let ty = types.bits(kind)?;
    Ok(ty)
}

/// The kind of bits that a word of this sign is.
pub(crate) fn kind_of(signed: bool, word: Bits) -> BitKind
    ensures { result ≡ record { signed = signed; width = word.width } }
{
    BitKind {
        signed,
        width: word.width() as u128,
    }
}

fn token_type(types: &mut TypeTable) -> Result<TypeId, AllocError>
    ensures { IfOk result (λ t. (names : ItemNames) → IsTypeOf names types.old types.new t dslx.Token) }
{
    let ty = types.token()?;
    Ok(ty)
}

fn unit_type(types: &mut TypeTable, alloc: Global) -> Result<TypeId, AllocError>
    ensures { IfOk result (λ t. (names : ItemNames) → IsTypeOf names types.old types.new t the_unit) }
{
    let ty = types.unit(alloc)?;
    Ok(ty)
}

/// The type of the struct of this name, if it has these fields and they have these types.
fn struct_there(
    f: &Facts,
    types: &TypeTable,
    name: &Name,
    fields: &[Name],
    parts: &[TypeId],
) -> Result<TypeId, AllocError>
    ensures { IfOk result (λ t. IsTypeThere (item_names f.now) types.now t (λ later. dslx.Struct name.now fields.now (map (type_at (item_names f.now) later) parts.now))) }
{
    match f.structure(name) {
        None => Err(AllocError),
        Some((item, structure)) => {
            let ty = named_type(f, item)?;
            if are_fields(fields, structure.fields.as_slice()) {
                if_struct(types, ty, item, parts)
            } else {
                Err(AllocError)
            }
        }
    }
}

fn if_struct(
    types: &TypeTable,
    ty: TypeId,
    item: u32,
    parts: &[TypeId],
) -> Result<TypeId, AllocError>
    ensures { IfOk result (λ t. (names : ItemNames) → IsTypeThere names types.now t (λ later. dslx.Struct (names.item item) (names.fields item) (map (type_at names later) parts.now))) }
{
    if is_struct(types, ty, item, parts) {
        Ok(ty)
    } else {
        Err(AllocError)
    }
}

/// The type of the enum of this name, if its base is this.
fn enum_type(
    f: &Facts,
    types: &TypeTable,
    name: &Name,
    signed: bool,
    word: Bits,
) -> Result<TypeId, AllocError>
    ensures { IfOk result (λ t. IsTypeThere (item_names f.now) types.now t (λ later. dslx.Enum name.now signed word.width)) }
{
    match f.choice(name) {
        None => Err(AllocError),
        Some((item, _)) => {
            let ty = named_type(f, item)?;
            if_enum(types, ty, item, kind_of(signed, word))
        }
    }
}

fn if_enum(types: &TypeTable, ty: TypeId, item: u32, kind: BitKind) -> Result<TypeId, AllocError>
    ensures { IfOk result (λ t. (names : ItemNames) → IsTypeThere names types.now t (λ later. dslx.Enum (names.item item) kind.signed kind.width)) }
{
    if is_enum(types, ty, item, kind) {
        Ok(ty)
    } else {
        Err(AllocError)
    }
}

/// The type that an item names, as far as it is known.
fn named_type(f: &Facts, item: u32) -> Result<TypeId, AllocError>
    ensures { IfOk result (λ t. named_type_at f.now item ≡ Some t) }
{
    match f.named_types.get(item as usize) {
        Some(Some(ty)) => Ok(*ty),
        _ => Err(AllocError),
    }
}

/// Whether the type is the struct of this item with parts of these types.
fn is_struct(types: &TypeTable, ty: TypeId, item: u32, parts: &[TypeId]) -> bool
    ensures { result ≡ true → (names : ItemNames) → IsTypeThere names types.now ty (λ later. dslx.Struct (names.item item) (names.fields item) (map (type_at names later) parts.now)) }
{
    match types.row(ty) {
        Some(row) => is_struct_row(row, item, parts),
        None => false,
    }
}

fn is_struct_row(row: &TypeRow, item: u32, parts: &[TypeId]) -> bool
    ensures { result ≡ is_struct_of item parts.now row.now }
{
    match row {
        TypeRow::Struct(of, declared) => *of == item && are_same(declared.as_slice(), parts),
        _ => false,
    }
}

fn are_same(a: &[TypeId], b: &[TypeId]) -> bool
    ensures { result ≡ pairwise same_id a.now b.now }
{
    if a.len() != b.len() {
        return false;
    }
    'parts: for i in 0..a.len() {
        if a[i].0 != b[i].0 {
            return false;
        }
    }
    true
}

fn are_fields(names: &[Name], fields: &[Field]) -> bool
    ensures { result ≡ pairwise bytes_eq names.now (map name_of_field fields.now) }
{
    if names.len() != fields.len() {
        return false;
    }
    'fields: for i in 0..names.len() {
        if names[i] != fields[i].name.name {
            return false;
        }
    }
    true
}

/// Whether the type is the enum of this item over this base.
fn is_enum(types: &TypeTable, ty: TypeId, item: u32, kind: BitKind) -> bool
    ensures { result ≡ true → (names : ItemNames) → IsTypeThere names types.now ty (λ later. dslx.Enum (names.item item) kind.signed kind.width) }
{
    match types.row(ty) {
        Some(row) => is_enum_row(row, item, kind),
        None => false,
    }
}

fn is_enum_row(row: &TypeRow, item: u32, kind: BitKind) -> bool
    ensures { result ≡ is_enum_of item kind row.now }
{
    match row {
        TypeRow::Enum(of, base) => *of == item && same_kind(*base, kind),
        _ => false,
    }
}

/// Whether the two have one sign and one width.
pub(crate) fn same_kind(a: BitKind, b: BitKind) -> bool
    ensures { result ≡ is_same_kind a b }
{
    same_sign(a.signed, b.signed) && a.width == b.width
}

fn same_sign(a: bool, b: bool) -> bool
    ensures { result ≡ same_bool a b }
{
    if a { b } else { !b }
}
