//! Struct values and fields.

ghost use Rattle.std.specs.Prelude.{◌≡◌, ℕ, List, IfOk, map};
ghost use Rattle.base.specs.Lists.Prefix.{IsPrefix};
ghost use Rattle.std.specs.Option.{option_copied};
ghost use Rattle.dslx_meaning.specs.Items.{as_struct, name_of_field};
ghost use Rattle.dslx_meaning.specs.Lists.{and_then, index_in};
ghost use Rattle.dslx_meaning.specs.Rules.AggregateRules as the;
ghost use Rattle.dslx_check_rules.specs.Interned.{HasRowIf, type_if};
ghost use Rattle.dslx_check_rules.specs.declared.table.row.TypeRow.{TypeRow as Row};
ghost use Rattle.dslx_check_facts.specs.Known.{item_names, text_of};
ghost use Rattle.dslx_check_facts.specs.Names.{definition_at};
ghost use Rattle.dslx_check_rules.specs.Nodes.Nodes.Structs.{fields_of};
ghost use Rattle.dslx_check_facts.specs.Walks.{shown};
ghost use Rattle.dslx_check_uses.specs.Inner.Fields.{AreFields, DeclaredFrom, UndeclaredFrom, without_type};
ghost use Rattle.dslx_check_uses.specs.Uses.{AreFieldValues, NodeFrom, struct_half};

use crate::items::definition;
use base::texts::Name;
use dslx_check_facts::{Facts, TypeEnv, Walk, named_type};
use dslx_check_rules::nodes::Spanned;
use dslx_check_rules::nodes::structs::{self, FieldTyping, StructParts};
use dslx_check_rules::{TypeId, TypeTable, Typing};
use dslx_tree::{Definition, Field, FieldValue, Ident, Struct};
use std::alloc::AllocError;
use xb_span::Span;

/// A struct value from its fields and what gives the others.
pub fn struct_of<'a>(
    f: &Facts<'a>,
    w: &mut Walk,
    s: &TypeEnv<'a>,
    span: Span,
    name: &Ident,
    fields: &[FieldValue],
    values: &[Spanned],
    others: Option<Spanned>,
) -> Result<Typing, AllocError>
    ensures { IfOk result (λ j. NodeFrom f.now s.now (shown w.old) (shown w.new) (AreFieldValues values.now others) (struct_half span name.now fields.now) j) }
{
    match f.structure(&name.name) {
        Some((item, declared)) => {
            let ty = named_type(f, w, item)?;
            let is_cyclic = f.is_cyclic(s.owner, item);
            declared_struct(
                f, &w.types, span, name.span, declared, ty, is_cyclic, fields, values, others,
            )
        }
        None => undeclared_struct(f, &w.types, span, name.span, values, others),
    }
}

/// A value of a struct that isn't declared: no type is wanted of a field.
fn undeclared_struct(
    f: &Facts,
    types: &TypeTable,
    span: Span,
    at: Span,
    values: &[Spanned],
    others: Option<Spanned>,
) -> Result<Typing, AllocError>
    ensures { IfOk result (λ j. UndeclaredFrom types.now span at values.now others j) }
{
    let all = fields_without(f, values)?;
    Ok(structs::undeclared_struct_typing(types, span, at, all.as_slice(), others))
}

/// The fields with no type that is wanted.
fn fields_without(f: &Facts, values: &[Spanned]) -> Result<Vec<FieldTyping>, AllocError>
    ensures { IfOk result (λ all. all.items ≡ map without_type values.now) }
{
    let mut all = Vec::new(f.alloc);
    'values: for value in values {
        all.push(FieldTyping {
            wanted: None,
            value: *value,
        })?;
    }
    Ok(all)
}

/// A value of a struct that is declared, of this type.
fn declared_struct(
    f: &Facts,
    types: &TypeTable,
    span: Span,
    at: Span,
    declared: &Struct,
    ty: Option<TypeId>,
    is_cyclic: bool,
    fields: &[FieldValue],
    values: &[Spanned],
    others: Option<Spanned>,
) -> Result<Typing, AllocError>
    ensures { IfOk result (λ j. DeclaredFrom f.now types.now span at declared.now ty is_cyclic fields.now values.now others j) }
{
    let unknown = structs::unknown_field_faults(f.alloc, declared, fields)?;
    let uneven = structs::uneven_field_faults(f.alloc, span, declared, fields, others.is_some())?;
    let all = fields_with(f, types, ty, fields, values)?;
    let parts = StructParts {
        name: at,
        ty,
        is_cyclic,
        fields: all.as_slice(),
        others,
        unknown,
        uneven,
    };
    Ok(structs::struct_typing(types, span, &parts))
}

/// The fields with the types that the struct of this type has there.
fn fields_with(
    f: &Facts,
    types: &TypeTable,
    ty: Option<TypeId>,
    fields: &[FieldValue],
    values: &[Spanned],
) -> Result<Vec<FieldTyping>, AllocError>
    ensures { IfOk result (λ all. AreFields f.now types.now ty fields.now values.now all.items) }
{
    let mut all = Vec::new(f.alloc);
    'fields: for i in 0..fields.len().min(values.len()) {
        let field = &fields[i];
        let value = values[i];
        let wanted = field_of(f, types, ty, &field.name.name);
        all.push(FieldTyping { wanted, value })?;
    }
    Ok(all)
}

/// The type of a field, if this is the type of a struct that has it.
pub fn field_of(f: &Facts, types: &TypeTable, ty: Option<TypeId>, name: &Name) -> Option<TypeId>
    ensures row { HasRowIf types.now ty → HasRowIf types.now result }
    ensures is { (later : List Row) → IsPrefix types.now later → HasRowIf types.now ty → type_if (item_names f.now) later result ≡ the.field_type (type_if (item_names f.now) later ty) name.now }
{
    let place = place_of(f, types, ty, name);
    structs::field_type(types, ty, place)
}

/// The place of a field in the struct of this type, if it is one that has the field.
fn place_of(f: &Facts, types: &TypeTable, ty: Option<TypeId>, name: &Name) -> Option<usize>
    ensures { (later : List Row) → IsPrefix types.now later → HasRowIf types.now ty → result ≡ and_then (fields_of (type_if (item_names f.now) later ty)) (index_in name.now) }
{
    match structs::struct_item(types, ty) {
        Some(item) => place_in_item(f, item, name),
        None => None,
    }
}

/// The place of a field of a struct by its item.
fn place_in_item(f: &Facts, item: u32, name: &Name) -> Option<usize>
    ensures { result ≡ index_in name.now ((item_names f.now).fields item) }
{
    match struct_at(f, item) {
        Some(declared) => field_place(declared.fields.as_slice(), name),
        None => None,
    }
}

/// The struct of a number.
fn struct_at<'a>(f: &Facts<'a>, item: u32) -> Option<&'a Struct>
    ensures { option_copied result ≡ as_struct (definition_at (text_of f.now).items item) }
{
    match definition(f, item) {
        Some(Definition::Struct(declared)) => Some(declared),
        _ => None,
    }
}

/// The place of the first field of a name. It takes time as fields stand before it.
fn field_place(fields: &[Field], name: &Name) -> Option<usize>
    ensures { result ≡ index_in name.now (map name_of_field fields.now) }
{
    'fields: for i in 0..fields.len() {
        let field = &fields[i];
        if *name == field.name.name {
            return Some(i);
        }
    }
    None
}
