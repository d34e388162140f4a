//! Struct values, before their fields are lowered.

ghost use Rattle.std.specs.Prelude.{◌≡◌, List, Some, IfOk};
ghost use Rattle.std.specs.List.{list_all};
ghost use Rattle.std.specs.Option.{option_copied};
ghost use Rattle.dslx_meaning.specs.Lists.{and_then, is_in, where_true};
ghost use Rattle.dslx_meaning.specs.declared.ty.DslxType.{Struct as struct_of, out-DslxType};
ghost use Rattle.dslx_core.specs.Lowering.Functions.{CoreInstance};
ghost use Rattle.dslx_core.specs.Machines.Machine.Parts.{fields_begin, names_of_fields, struct_begins};
ghost use Rattle.dslx_instance.specs.Tasks.Shown.{body_shown, instance_env_of};
ghost use Rattle.dslx_instance_parts.specs.Inner.Fields.{fields_by, others_needed};

use crate::fields::next_field;
use base::stacks::Stack;
use base::texts::Name;
use dslx_instance::tasks::{LowerTask, OpenBody, PartsTask, StructWork};
use dslx_meaning::DslxType;
use dslx_meaning::names::find_field;
use dslx_tree::{Expr, FieldValue, Module};
use dslx_values::{copy_names, copy_types};
use std::alloc::{AllocError, Global};
use xb_value::{Boxed, Seq};

/// A value of a struct's type is to be made of these fields and those of another value; whether the type is a struct's.
pub fn begin_struct<'a>(
    body: &mut OpenBody<'a>,
    alloc: Global,
    text: &'a Module,
    ty: Option<DslxType>,
    written: &'a [FieldValue],
    rest: &'a Option<Boxed<Expr>>,
) -> Result<bool, AllocError>
    ensures { IfOk result (λ is. (table : List CoreInstance) → where_true is (Some (body_shown body.new)) ≡ and_then ty (λ t. struct_begins (instance_env_of text.now table) written.now rest.now (out-DslxType t) (body_shown body.old))) }
{
    match ty {
        Some(ty) => begin_fields(body, alloc, text, ty, written, rest),
        None => Ok(false),
    }
}

fn begin_fields<'a>(
    body: &mut OpenBody<'a>,
    alloc: Global,
    text: &'a Module,
    ty: DslxType,
    written: &'a [FieldValue],
    rest: &'a Option<Boxed<Expr>>,
) -> Result<bool, AllocError>
    ensures { IfOk result (λ is. (table : List CoreInstance) → where_true is (Some (body_shown body.new)) ≡ struct_begins (instance_env_of text.now table) written.now rest.now (out-DslxType ty) (body_shown body.old)) }
{
    match ty {
        DslxType::Struct(name, fields, types) => {
            begin_named(body, alloc, text, name, fields, types, written, rest)
        }
        _ => Ok(false),
    }
}

/// A value of the struct of this name, with fields of these types.
fn begin_named<'a>(
    body: &mut OpenBody<'a>,
    alloc: Global,
    text: &'a Module,
    name: Name,
    fields: Seq<Name>,
    types: Seq<DslxType>,
    written: &'a [FieldValue],
    rest: &'a Option<Boxed<Expr>>,
) -> Result<bool, AllocError>
    ensures { IfOk result (λ is. (table : List CoreInstance) → where_true is (Some (body_shown body.new)) ≡ fields_begin (instance_env_of text.now table) written.now rest.now (struct_of name fields types) fields types (body_shown body.old)) }
{
    let others = needed_others(fields.as_slice(), written, rest);
    let names = in_order(alloc, copy_names(alloc, fields.as_slice())?)?;
    let left = in_order(alloc, copy_types(alloc, types.as_slice())?)?;
    let ty = DslxType::Struct(name, fields, types);
    begin_with(body, alloc, text, ty, written, others, names, left)
}

/// Lowers the value that has the other fields, where it is needed, and goes on with the fields.
fn begin_with<'a>(
    body: &mut OpenBody<'a>,
    alloc: Global,
    text: &'a Module,
    ty: DslxType,
    written: &'a [FieldValue],
    others: Option<&'a Expr>,
    names: Stack<Name>,
    types: Stack<DslxType>,
) -> Result<bool, AllocError>
    ensures { IfOk result (λ is. (table : List CoreInstance) → where_true is (Some (body_shown body.new)) ≡ fields_by (instance_env_of text.now table) written.now (option_copied others.entry) ty names types (body_shown body.old)) }
{
    match others {
        Some(others) => {
            body.first_parts(alloc, PartsTask::TakeOthers(ty, names, types, written))?;
            body.first(LowerTask::Expr(others))?;
            Ok(true)
        }
        None => {
            let work = StructWork {
                ty,
                written,
                others: None,
            };
            next_field(body, alloc, text, work, Vec::new(alloc), names, types)
        }
    }
}

/// What has the fields that aren't written, if there is such a field.
fn needed_others<'a>(
    fields: &[Name],
    written: &'a [FieldValue],
    rest: &'a Option<Boxed<Expr>>,
) -> Option<&'a Expr>
    ensures { option_copied result ≡ others_needed fields.now written.now rest.now }
{
    match rest {
        Some(others) => if are_written(fields, written) {
            None
        } else {
            Some(others.get())
        },
        None => None,
    }
}

/// Whether each of these fields is written.
fn are_written(fields: &[Name], written: &[FieldValue]) -> bool
    ensures { result ≡ list_all (λ field. is_in field (names_of_fields written.now)) fields.now }
{
    'fields: for field in fields {
        if !is_written(field, written) {
            return false;
        }
    }
    true
}

/// Whether a field of this name is written.
#[tactic(auto, using(crate::proofs::Written::is_among, crate::proofs::Written::is_not_among))]
fn is_written(field: &Name, written: &[FieldValue]) -> bool
    ensures { result ≡ is_in field.now (names_of_fields written.now) }
{
    match find_field(written, field) {
        Some(_) => true,
        None => false,
    }
}

/// The items as a stack, the first one on the top.
fn in_order<T: Drop>(alloc: Global, mut items: Seq<T>) -> Result<Stack<T>, AllocError>
    ensures { IfOk result (λ stack. stack ≡ items) }
{
    let mut stack = Stack::new(alloc);
    'items: while let Some(item) = items.pop() {
        stack.push(item)?;
    }
    Ok(stack)
}
