//! The fields of a struct value, in the order of its type.

ghost use Rattle.std.specs.Prelude.{◌≡◌, ◌∷◌, ◌++◌, [], List, Some, IfOk};
ghost use Rattle.dslx_meaning.specs.Lists.{and_then, where_true};
ghost use Rattle.dslx_tree.specs.declared.expr.FieldValue.{out-FieldValue};
ghost use Rattle.dslx_meaning.specs.Names.ConstMachine.Layers.{field_among};
ghost use Rattle.dslx_core.specs.Lowering.Functions.{CoreInstance};
ghost use Rattle.dslx_core.specs.Lowering.Lowering.{lower_field};
ghost use Rattle.dslx_core.specs.Lowering.Trees.{of_type};
ghost use Rattle.dslx_core.specs.Machines.Machine.Bodies.{doing, with_last, with_made};
ghost use Rattle.dslx_core.specs.Machines.Machine.Parts.{field_begins, field_value_begins, fields_on, others_taken};
ghost use Rattle.dslx_core.specs.Machines.Machine.Tasks.{GathersFields};
ghost use Rattle.dslx_instance.specs.Tasks.Shown.{body_shown, others_shown, instance_env_of, struct_shown};

use crate::order::put_behind;
use base::stacks::Stack;
use base::texts::Name;
use dslx_core::lowering::LoweredExpr;
use dslx_core_exprs::aggregates::{field_of_slot, lower_struct};
use dslx_core_exprs::alike::equal_type;
use dslx_instance::steps::bind_unnamed;
use dslx_instance::tasks::{LowerTask, OpenBody, OtherFields, PartsTask, StructWork};
use dslx_meaning::DslxType;
use dslx_meaning::names::find_field;
use dslx_scope_names::scopes::name_in_body;
use dslx_tree::{FieldValue, Module};
use dslx_values::copy_type;
use std::alloc::{AllocError, Global};

/// Goes on with the fields that are left, behind these; whether there is the next, or the struct.
pub(crate) fn next_field<'a>(
    body: &mut OpenBody<'a>,
    alloc: Global,
    text: &'a Module,
    work: StructWork<'a>,
    before: Vec<LoweredExpr>,
    mut names: Stack<Name>,
    mut types: Stack<DslxType>,
) -> Result<bool, AllocError>
    ensures { IfOk result (λ is. (table : List CoreInstance) → where_true is (Some (body_shown body.new)) ≡ fields_on (instance_env_of text.now table) (struct_shown work.entry) before.items names types (body_shown body.old)) }
{
    match names.take_off() {
        Some(name) => match types.take_off() {
            Some(ty) => begin_field(body, alloc, text, work, before, name, ty, names, types),
            None => Ok(false),
        },
        None => match types.take_off() {
            Some(_) => Ok(false),
            None => {
                body.give(lower_struct(alloc, before, work.ty)?)?;
                Ok(true)
            }
        },
    }
}

/// Lowers a field that is written; one that isn't is the bound value's.
fn begin_field<'a>(
    body: &mut OpenBody<'a>,
    alloc: Global,
    text: &'a Module,
    work: StructWork<'a>,
    before: Vec<LoweredExpr>,
    name: Name,
    ty: DslxType,
    names: Stack<Name>,
    types: Stack<DslxType>,
) -> Result<bool, AllocError>
    ensures { IfOk result (λ is. (table : List CoreInstance) → where_true is (Some (body_shown body.new)) ≡ field_begins (field_among name work.entry.written.now) name (others_shown work.entry.others) (instance_env_of text.now table) (doing (GathersFields (struct_shown work.entry) before.items ty names types ∷ []) (body_shown body.old))) }
{
    match find_field(work.written, &name) {
        Some(value) => {
            body.first_parts(
                alloc,
                PartsTask::GatherFields(work, before, ty, names, types),
            )?;
            begin_value(body, alloc, text, value)
        }
        None => {
            let other = other_field(alloc, &work.others, &name)?;
            body.first_parts(
                alloc,
                PartsTask::GatherFields(work, before, ty, names, types),
            )?;
            body.give_if(other)
        }
    }
}

/// The value of a field that is written; one that is given by its name alone is what that name stands for.
fn begin_value<'a>(
    body: &mut OpenBody<'a>,
    alloc: Global,
    text: &'a Module,
    field: &'a FieldValue,
) -> Result<bool, AllocError>
    ensures { IfOk result (λ is. (table : List CoreInstance) → where_true is (Some (body_shown body.new)) ≡ field_value_begins (out-FieldValue field.now).name.name (out-FieldValue field.now).value (instance_env_of text.now table) (body_shown body.old)) }
{
    match &field.value {
        Some(expr) => {
            body.first(LowerTask::Expr(expr.get()))?;
            Ok(true)
        }
        None => {
            let value = name_in_body(alloc, text, body, &field.name.name)?;
            body.give_if(value)
        }
    }
}

/// A field of the bound value.
fn other_field(
    alloc: Global,
    others: &Option<OtherFields>,
    name: &Name,
) -> Result<Option<LoweredExpr>, AllocError>
    ensures { IfOk result (λ e. e ≡ lower_field (others_shown others.now) name.now) }
{
    match others {
        Some(others) => field_of_slot(alloc, others.slot, &others.ty, name),
        None => Ok(None),
    }
}

/// Puts what was made last behind those before it, if it is of the field's type, and goes on with the next.
pub fn take_field<'a>(
    body: &mut OpenBody<'a>,
    alloc: Global,
    text: &'a Module,
    work: StructWork<'a>,
    before: Vec<LoweredExpr>,
    ty: DslxType,
    names: Stack<Name>,
    types: Stack<DslxType>,
) -> Result<bool, AllocError>
    ensures { IfOk result (λ is. (table : List CoreInstance) → where_true is (Some (body_shown body.new)) ≡ with_last (body_shown body.old).made (λ e made. and_then (of_type ty (Some e)) (λ e. fields_on (instance_env_of text.now table) (struct_shown work.entry) (before.items ++ e ∷ []) names types (with_made made (body_shown body.old))))) }
{
    match body.made.take_off() {
        Some(last) => {
            if equal_type(&ty, &last.ty) {
                next_field(
                    body,
                    alloc,
                    text,
                    work,
                    put_behind(before, last)?,
                    names,
                    types,
                )
            } else {
                Ok(false)
            }
        }
        None => Ok(false),
    }
}

/// What was made last is bound, for the fields that aren't written.
pub fn take_others<'a>(
    body: &mut OpenBody<'a>,
    alloc: Global,
    text: &'a Module,
    ty: DslxType,
    names: Stack<Name>,
    types: Stack<DslxType>,
    written: &'a [FieldValue],
) -> Result<bool, AllocError>
    ensures { IfOk result (λ is. (table : List CoreInstance) → where_true is (Some (body_shown body.new)) ≡ with_last (body_shown body.old).made (λ e made. others_taken (instance_env_of text.now table) e ty names types written.now (with_made made (body_shown body.old)))) }
{
    match body.made.take_off() {
        Some(last) => bind_others(body, alloc, text, last, ty, names, types, written),
        None => Ok(false),
    }
}

/// This value is bound, for the fields that aren't written.
fn bind_others<'a>(
    body: &mut OpenBody<'a>,
    alloc: Global,
    text: &'a Module,
    value: LoweredExpr,
    ty: DslxType,
    names: Stack<Name>,
    types: Stack<DslxType>,
    written: &'a [FieldValue],
) -> Result<bool, AllocError>
    ensures { IfOk result (λ is. (table : List CoreInstance) → where_true is (Some (body_shown body.new)) ≡ others_taken (instance_env_of text.now table) value ty names types written.now (body_shown body.old)) }
{
    let others = OtherFields {
        slot: body.count,
        ty: copy_type(alloc, &value.ty)?,
    };
    bind_unnamed(body, alloc, value)?;
    let work = StructWork {
        ty,
        written,
        others: Some(others),
    };
    next_field(body, alloc, text, work, Vec::new(alloc), names, types)
}
