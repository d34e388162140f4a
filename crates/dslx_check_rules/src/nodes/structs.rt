//! Struct values and fields from their parts.

ghost use Rattle.std.specs.Prelude.{◌≡◌, ◌||◌, ℕ, List, Option, Some, false, map, IfOk, OnOk, is_some, not, slice_get};
ghost use Rattle.std.specs.List.{list_any};
ghost use Rattle.std.specs.Option.{option_map};
ghost use Rattle.base.specs.Lists.Prefix.{IsPrefix};
ghost use Rattle.base.specs.NameTable.Found.{found};
ghost use Rattle.dslx_meaning.specs.Lists.{and_then, index_in, is_in};
ghost use Rattle.dslx_meaning.specs.Items.{name_of_field};
ghost use Rattle.dslx_meaning.specs.Rules.AggregateRules as the;
ghost use Rattle.dslx_meaning.specs.Rules.RuleNumbers as asks;
ghost use Rattle.dslx_meaning.specs.Rules.TypeEnvs.{breaks_if};
ghost use Rattle.dslx_check_rules.specs.Seen.{seen};
ghost use Rattle.dslx_check_rules.specs.Interned.{AreDistinct, HasRow, HasRowIf, ItemNames, type_at, type_if};
ghost use Rattle.dslx_check_rules.specs.declared.table.row.TypeRow.{TypeRow as Row};
ghost use Rattle.dslx_check_rules.specs.Nodes.Parts.{IsPart, IsPlacedIf, Pairs, Placed};
ghost use Rattle.dslx_check_rules.specs.Nodes.Nodes.Lists.{IsList};
ghost use Rattle.dslx_check_rules.specs.Nodes.Nodes.Structs as half;

use crate::nodes::aggregates::lacks;
use crate::nodes::arrays::fitted;
use crate::nodes::lists::ListTyping;
use crate::nodes::operators::if_there;
use crate::nodes::parts::{Spanned, either, settle};
use crate::{Faults, TypeId, TypeRow, TypeTable, Typing, one_and, plus_size, rule};
use base::name_table::Table;
use dslx_tree::{Field, FieldValue, Struct};
use std::alloc::{AllocError, Global};
use xb_span::Span;

/// A field of a struct value: the type that its struct has there, if it is known, and its value.
#[derive(Clone, Copy)]
pub struct FieldTyping {
    pub wanted: Option<TypeId>,
    pub value: Spanned,
}

/// A struct value whose struct is declared: where its name stands, whether it is of a cycle, the struct's type, the fields, what gives
/// the others, and what is found of their names: those that the struct hasn't, and whether each of its own is there once.
#[derive(Clone, Copy)]
pub struct StructParts<'p> {
    pub name: Span,
    pub is_cyclic: bool,
    pub ty: Option<TypeId>,
    pub fields: &'p [FieldTyping],
    pub others: Option<Spanned>,
    pub unknown: Faults,
    pub uneven: Faults,
}

/// A struct value whose struct is declared.
pub fn struct_typing(types: &TypeTable, span: Span, parts: &StructParts) -> Typing
    ensures { half.FromStruct span types.now parts.now result }
{
    let all = all_fields(types, parts.fields);
    let others = others_typing(types, parts.ty, parts.others);
    let cyclic = Faults::breaks_if(parts.is_cyclic, rule::NO_ITEM_REACHES_ITSELF, parts.name);
    let values = cyclic.and(all.faults).and(others.faults);
    let faults = values.and(parts.unknown).and(parts.uneven);
    let whole = all.when_all(parts.ty);
    let ty = if_there(others.ty, whole);
    let size = one_and(plus_size(all.size, others.size));
    settle(types, span, ty, faults, size)
}

/// A struct value whose struct, of the name at this place, isn't declared.
pub fn undeclared_struct_typing(
    types: &TypeTable,
    span: Span,
    name: Span,
    fields: &[FieldTyping],
    others: Option<Spanned>,
) -> Typing
    ensures { half.FromUndeclared span name types.now fields.now others result }
{
    let all = all_fields(types, fields);
    let others = others_typing(types, None, others);
    let own = Faults::breaks(rule::NAME_IS_DECLARED, name);
    let values = all.faults.and(others.faults);
    let faults = own.and(values);
    let size = one_and(plus_size(all.size, others.size));
    settle(types, span, None, faults, size)
}

/// What the fields come to together, each of which has its type.
fn all_fields(types: &TypeTable, fields: &[FieldTyping]) -> ListTyping
    ensures { (names : ItemNames) (later : List Row) (xs : List half.FieldPlaced) → AreDistinct names → IsPrefix types.now later → Pairs (half.IsField names types.now later) fields.now xs
        → IsList result (map half.field_of xs) }
{
    let mut all = ListTyping::none();
    'fields: for field in fields {
        let value = fitted(types, field.wanted, field.value);
        all = all.and(value);
    }
    all
}

/// What gives the other fields is of the struct.
fn others_typing(types: &TypeTable, ty: Option<TypeId>, others: Option<Spanned>) -> Typing
    ensures { (names : ItemNames) (later : List Row) (o : Option Placed) → AreDistinct names → IsPrefix types.now later → HasRowIf types.now ty → IsPlacedIf names types.now later others o
        → IsPart names types.now later result (half.others_of (type_if names later ty) o) }
{
    match others {
        None => Typing {
            ty,
            faults: Faults::none(),
            size: Some(0),
        },
        Some(others) => fitted(types, ty, others),
    }
}

/// The item of the struct that this type is, if it is one.
pub fn struct_item(types: &TypeTable, ty: Option<TypeId>) -> Option<u32>
    ensures { (names : ItemNames) (later : List Row) → IsPrefix types.now later → HasRowIf types.now ty → option_map names.fields result ≡ half.fields_of (type_if names later ty) }
{
    match ty {
        Some(ty) => item_of_type(types, ty),
        None => None,
    }
}

fn item_of_type(types: &TypeTable, ty: TypeId) -> Option<u32>
    ensures { (names : ItemNames) (later : List Row) → IsPrefix types.now later → HasRow types.now ty → option_map names.fields result ≡ half.fields_of (Some (type_at names later ty)) }
{
    match types.row(ty) {
        Some(row) => item_of_row(row),
        None => None,
    }
}

fn item_of_row(row: &TypeRow) -> Option<u32>
    ensures { result ≡ half.item_in row.now }
{
    match row {
        TypeRow::Struct(item, _) => Some(*item),
        _ => None,
    }
}

/// The type of the field at this place, if this is the type of a struct.
pub fn field_type(types: &TypeTable, ty: Option<TypeId>, at: Option<usize>) -> Option<TypeId>
    ensures is { (names : ItemNames) (later : List Row) (name : List ℕ) → IsPrefix types.now later → HasRowIf types.now ty → at ≡ and_then (half.fields_of (type_if names later ty)) (index_in name)
        → type_if names later result ≡ the.field_type (type_if names later ty) name }
    ensures there { HasRowIf types.now ty → HasRowIf types.now result }
{
    match (ty, at) {
        (Some(ty), Some(at)) => part_of_type(types, ty, at),
        _ => None,
    }
}

fn part_of_type(types: &TypeTable, ty: TypeId, at: usize) -> Option<TypeId>
    ensures is { (names : ItemNames) (later : List Row) (name : List ℕ) → IsPrefix types.now later → HasRow types.now ty → Some at ≡ and_then (half.fields_of (Some (type_at names later ty))) (index_in name)
        → type_if names later result ≡ the.field_type (Some (type_at names later ty)) name }
    ensures there { HasRow types.now ty → HasRowIf types.now result }
{
    match types.row(ty) {
        Some(row) => part_of_row(row, at),
        None => None,
    }
}

fn part_of_row(row: &TypeRow, at: usize) -> Option<TypeId>
    ensures { result ≡ half.part_in row.now at }
{
    match row {
        TypeRow::Struct(_, parts) => id_at(parts.as_slice(), at),
        _ => None,
    }
}

fn id_at(parts: &[TypeId], at: usize) -> Option<TypeId>
    ensures { result ≡ slice_get parts.now at }
{
    if at < parts.len() {
        Some(parts[at])
    } else {
        None
    }
}

/// A field of a value, which has this type if the value's struct has it.
pub fn field_part_typing(
    types: &TypeTable,
    span: Span,
    whole: Typing,
    field: Option<TypeId>,
) -> Typing
    ensures { half.FromField span types.now whole field result }
{
    let own = lacks(span, whole.ty, field);
    let faults = whole.faults.and(own);
    let size = one_and(whole.size);
    settle(types, span, field, faults, size)
}

/// Fields that the struct hasn't.
pub fn unknown_field_faults(
    alloc: Global,
    declared: &Struct,
    fields: &[FieldValue],
) -> Result<Faults, AllocError>
    ensures { IfOk result (λ faults. faults ≡ seen (half.unknown_idents (map name_of_field declared.now.fields) (map half.ident_of fields.now))) }
{
    let names = names_of(alloc, declared.fields.as_slice())?;
    Ok(unknown_faults(&names, fields))
}

/// A field stands twice, or one lacks where nothing gives the others.
pub fn uneven_field_faults(
    alloc: Global,
    span: Span,
    declared: &Struct,
    fields: &[FieldValue],
    has_others: bool,
) -> Result<Faults, AllocError>
    ensures { IfOk result (λ faults. faults ≡ seen (breaks_if (the.has_twice (half.written_names fields.now)
        || the.lacks_one (map name_of_field declared.now.fields) (half.written_names fields.now) has_others) asks.STRUCT_FIELDS span)) }
{
    let mut written = Table::new(alloc);
    let is_twice = put_all(&mut written, fields)?;
    let is_lacking = lacks_one(&written, declared.fields.as_slice(), has_others);
    Ok(Faults::breaks_if(is_twice || is_lacking, rule::STRUCT_FIELDS, span))
}

/// The names of the fields.
fn names_of<'a>(alloc: Global, fields: &'a [Field]) -> Result<Table<'a, bool>, AllocError>
    ensures { IfOk result (λ names. (name : List ℕ) → is_some (found names name) ≡ is_in name (map name_of_field fields.now)) }
{
    let mut names = Table::new(alloc);
    'fields: for field in fields {
        names.put_new(field.name.name.as_str(), true)?;
    }
    Ok(names)
}

fn unknown_faults(names: &Table<bool>, fields: &[FieldValue]) -> Faults
    ensures { (declared : List (List ℕ)) → ((name : List ℕ) → is_some (found names.now name) ≡ is_in name declared) → result ≡ seen (half.unknown_idents declared (map half.ident_of fields.now)) }
{
    let mut faults = Faults::none();
    'fields: for field in fields {
        let is_known = names.has(field.name.name.as_str());
        let own = Faults::breaks_if(!is_known, rule::NAME_IS_DECLARED, field.name.span);
        faults = faults.and(own);
    }
    faults
}

/// Puts the names of fields into an empty table, and gives whether one stands twice.
fn put_all<'a>(written: &mut Table<'a, bool>, fields: &'a [FieldValue]) -> Result<bool, AllocError>
    ensures twice { ((name : List ℕ) → is_some (found written.old name) ≡ false) → IfOk result (λ is_twice. is_twice ≡ the.has_twice (half.written_names fields.now)) }
    ensures put { ((name : List ℕ) → is_some (found written.old name) ≡ false) → OnOk result ((name : List ℕ) → is_some (found written.new name) ≡ is_in name (half.written_names fields.now)) }
{
    let mut is_twice = false;
    'fields: for field in fields {
        let name = field.name.name.as_str();
        is_twice = either(is_twice, written.has(name));
        written.put_new(name, true)?;
    }
    Ok(is_twice)
}

/// A field of the struct isn't written, where nothing gives it.
fn lacks_one(written: &Table<bool>, fields: &[Field], has_others: bool) -> bool
    ensures { (names : List (List ℕ)) → ((name : List ℕ) → is_some (found written.now name) ≡ is_in name names) → result ≡ the.lacks_one (map name_of_field fields.now) names has_others }
{
    !has_others && some_lacks(written, fields)
}

fn some_lacks(written: &Table<bool>, fields: &[Field]) -> bool
    ensures { (names : List (List ℕ)) → ((name : List ℕ) → is_some (found written.now name) ≡ is_in name names) → result ≡ list_any (λ name. not (is_in name names)) (map name_of_field fields.now) }
{
    let mut is_lacking = false;
    'fields: for field in fields {
        let is_written = written.has(field.name.name.as_str());
        is_lacking = either(is_lacking, !is_written);
    }
    is_lacking
}
