//! The fields of a struct value, in the order of its type.

ghost use Rattle.std.specs.Prelude.{◌≡◌, [], Some, None, OnOk, IfOk};
ghost use Rattle.dslx_meaning.specs.Meaning.{field_from as the_field};
ghost use Rattle.dslx_meaning.specs.declared.ty.DslxType.{out-DslxType};
ghost use Rattle.dslx_meaning.specs.Names.ConstMachine.Lists.{field_begins, fields_on, gathers_fields, rest_begins, fields_of_type};
ghost use Rattle.dslx_meaning.specs.Names.ConstMachine.Steps.{stepped};
ghost use Rattle.dslx_meaning.specs.Names.ConstMachine.Tasks.{FindsFields, TakesRest};
ghost use Rattle.dslx_const_tasks.specs.Plain.{shown, plain_fields};

use base::texts::Name;
use dslx_const_tasks::items::use_name;
use dslx_const_tasks::{Fields, ListTask, Machine, Task};
use dslx_meaning::names::find_field;
use dslx_meaning::{DslxType, DslxValue};
use dslx_tree::{Expr, FieldValue};
use dslx_values::{copy_name, field_of};
use std::alloc::{AllocError, Global};
use xb_value::{Boxed, Seq};

/// Begins with the fields of the struct type that was found.
pub(crate) fn begin_fields<'a>(
    machine: &mut Machine<'a>,
    alloc: Global,
    fields: &'a [FieldValue],
    rest: &'a Option<Boxed<Expr>>,
) -> Result<(), AllocError>
    ensures { OnOk result (shown machine.new ≡ stepped (FindsFields fields.now rest.now) (shown machine.old)) }
{
    match machine.take_type() {
        Some(ty) => begin_fields_of(machine, alloc, ty, fields, rest),
        None => Ok(()),
    }
}

fn begin_fields_of<'a>(
    machine: &mut Machine<'a>,
    alloc: Global,
    ty: DslxType,
    fields: &'a [FieldValue],
    rest: &'a Option<Boxed<Expr>>,
) -> Result<(), AllocError>
    ensures { OnOk result (shown machine.new ≡ fields_of_type (out-DslxType ty) fields.now rest.now (shown machine.old)) }
{
    match ty {
        DslxType::Struct(name, names, _) => {
            begin_rest(machine, alloc, name, names, fields, rest)
        }
        _ => machine.give(None),
    }
}

/// Finds the value that gives the fields that aren't written, if there is one, and then the fields.
fn begin_rest<'a>(
    machine: &mut Machine<'a>,
    alloc: Global,
    name: Name,
    names: Seq<Name>,
    fields: &'a [FieldValue],
    rest: &'a Option<Boxed<Expr>>,
) -> Result<(), AllocError>
    ensures { OnOk result (shown machine.new ≡ rest_begins rest.now name names fields.now (shown machine.old)) }
{
    match rest {
        Some(expr) => machine.eval_then_list(
            alloc,
            expr.get(),
            ListTask::TakeRest(name, names, fields),
        ),
        None => gather_fields(
            machine,
            alloc,
            Fields {
                name,
                names,
                values: Vec::new(alloc),
                written: fields,
                rest: None,
            },
        ),
    }
}

/// Goes on with the fields, where those that aren't written are those of the value that was found.
pub(crate) fn take_rest<'a>(
    machine: &mut Machine<'a>,
    alloc: Global,
    name: Name,
    names: Seq<Name>,
    fields: &'a [FieldValue],
) -> Result<(), AllocError>
    ensures { OnOk result (shown machine.new ≡ stepped (TakesRest name names fields.now) (shown machine.old)) }
{
    let rest = machine.take_value();
    gather_fields(
        machine,
        alloc,
        Fields {
            name,
            names,
            values: Vec::new(alloc),
            written: fields,
            rest,
        },
    )
}

/// Puts the field that was found behind those before it, and goes on with the next.
pub(crate) fn gather_next_field<'a>(
    machine: &mut Machine<'a>,
    alloc: Global,
    mut fields: Fields<'a>,
) -> Result<(), AllocError>
    ensures { OnOk result (shown machine.new ≡ stepped (plain_fields fields.entry) (shown machine.old)) }
{
    match machine.take_value() {
        Some(value) => {
            fields.values.push(value)?;
            gather_fields(machine, alloc, fields)
        }
        None => Ok(()),
    }
}

/// Goes on with the field behind those that are found.
fn gather_fields<'a>(
    machine: &mut Machine<'a>,
    alloc: Global,
    fields: Fields<'a>,
) -> Result<(), AllocError>
    ensures { OnOk result (shown machine.new ≡ gathers_fields fields.entry.name fields.entry.names fields.entry.values.items fields.entry.written.now fields.entry.rest (shown machine.old)) }
{
    match fields.names.get(fields.values.len()) {
        Some(name) => {
            let next = copy_name(alloc, name)?;
            begin_field(machine, alloc, &next, fields)
        }
        None => machine.give(Some(DslxValue::Struct(
            fields.name,
            fields.names,
            Seq::from_vec(fields.values),
        ))),
    }
}

/// Finds a field: as it is written, or else from the value that gives the others.
fn begin_field<'a>(
    machine: &mut Machine<'a>,
    alloc: Global,
    name: &Name,
    fields: Fields<'a>,
) -> Result<(), AllocError>
    ensures { OnOk result (shown machine.new ≡ fields_on (Some name.now) fields.entry.name fields.entry.names fields.entry.values.items fields.entry.written.now fields.entry.rest (shown machine.old)) }
{
    match find_field(fields.written, name) {
        Some(field) => {
            machine.first_list(alloc, ListTask::GatherFields(fields))?;
            begin_field_value(machine, alloc, field)
        }
        None => {
            let value = field_from(alloc, name, &fields.rest)?;
            machine.first_list(alloc, ListTask::GatherFields(fields))?;
            machine.give(value)
        }
    }
}

/// Finds a field as it is written; one given by its name alone has the value of that name.
fn begin_field_value<'a>(
    machine: &mut Machine<'a>,
    alloc: Global,
    field: &'a FieldValue,
) -> Result<(), AllocError>
    ensures { OnOk result (shown machine.new ≡ field_begins (Some field.now) [] None (shown machine.old)) }
{
    match &field.value {
        Some(expr) => machine.first(Task::Eval(expr.get())),
        None => use_name(machine, alloc, &field.name.name),
    }
}

/// A field of a value.
fn field_from(
    alloc: Global,
    name: &Name,
    value: &Option<DslxValue>,
) -> Result<Option<DslxValue>, AllocError>
    ensures { IfOk result (λ v. v ≡ the_field name.now value.now) }
{
    match value {
        Some(value) => field_of(alloc, value, name.as_str()),
        None => Ok(None),
    }
}
