//! Names, and the items that they stand for.

ghost use Rattle.std.specs.Prelude.{◌≡◌, [], Some, OnOk, IfOk};
ghost use Rattle.dslx_meaning.specs.Environment.{given_in};
ghost use Rattle.dslx_meaning.specs.Items.{item_named, is_constant_item, member_named};
ghost use Rattle.dslx_meaning.specs.Names.ConstMachine.States.{at_item, one_less};
ghost use Rattle.dslx_meaning.specs.Names.ConstMachine.Items.{constant_from, is_constant_within, member_from, struct_from, type_from, uses_constant, uses_name, uses_member, at_member, uses_struct, uses_type, at_type_item, at_struct};
ghost use Rattle.dslx_const_tasks.specs.Plain.{shown};

use crate::items::ty::gather_field_types;
use crate::{CallTask, Machine, Task, TypeTask, copy_if, one_left};
use base::texts::Name;
use dslx_meaning::DslxValue;
use dslx_meaning::names::{Scope, find_constant, find_enum, find_item, find_member, find_struct};
use dslx_tree::{Definition, Enum, Item, Struct};
use dslx_values::copy_value;
use std::alloc::{AllocError, Global};

/// Goes to an item, where only items are in scope and a chain of uses may go through so many others.
fn go_to_item<'a>(machine: &mut Machine<'a>, alloc: Global, left: u64) -> Result<(), AllocError>
    ensures { OnOk result (shown machine.new ≡ at_item left [] (shown machine.old)) }
{
    let bound = std::mem::replace(&mut machine.bound, Scope::new(alloc));
    let outer = machine.left;
    machine.first_call(alloc, CallTask::Return(bound, outer))?;
    machine.left = left;
    Ok(())
}

/// Whether a name is a constant's.
pub fn is_constant<'a>(machine: &Machine<'a>, name: &Name) -> bool
    ensures { result ≡ is_constant_within (shown machine.now).text (shown machine.now).left name.now }
{
    match one_left(machine.left) {
        Some(_) => names_constant(machine.text.items.as_slice(), name),
        None => false,
    }
}

/// Finds the value of a constant.
pub fn use_constant<'a>(
    machine: &mut Machine<'a>,
    alloc: Global,
    name: &Name,
) -> Result<(), AllocError>
    ensures { OnOk result (shown machine.new ≡ uses_constant name.now (shown machine.old)) }
{
    match machine.kept {
        Some(kept) => {
            let value = copy_if(alloc, kept.constant(name))?;
            machine.give(value)
        }
        None => evaluate_constant(machine, alloc, name),
    }
}

/// Goes to the text of a constant.
fn evaluate_constant<'a>(
    machine: &mut Machine<'a>,
    alloc: Global,
    name: &Name,
) -> Result<(), AllocError>
    ensures { OnOk result (shown machine.new ≡ constant_from (one_less (shown machine.old).left) name.now (shown machine.old)) }
{
    match one_left(machine.left) {
        Some(left) => match find_constant(machine.text.items.as_slice(), name) {
            Some(constant) => {
                go_to_item(machine, alloc, left)?;
                machine.first(Task::Eval(&constant.value))
            }
            None => machine.give(None),
        },
        None => machine.give(None),
    }
}

/// Finds the value of a name.
pub fn use_name<'a>(machine: &mut Machine<'a>, alloc: Global, name: &Name) -> Result<(), AllocError>
    ensures { OnOk result (shown machine.new ≡ uses_name name.now (shown machine.old)) }
{
    match copy_bound(machine, alloc, name)? {
        Some(value) => machine.give(Some(value)),
        None => use_constant(machine, alloc, name),
    }
}

/// A copy of what is bound as a name.
fn copy_bound<'a>(
    machine: &Machine<'a>,
    alloc: Global,
    name: &Name,
) -> Result<Option<DslxValue>, AllocError>
    ensures { IfOk result (λ v. v ≡ given_in name.now (shown machine.now).bound) }
{
    match machine.bound.get(name) {
        Some(value) => Ok(Some(copy_value(alloc, value)?)),
        None => Ok(None),
    }
}

/// Finds the value of an enum's member.
pub fn use_member<'a>(
    machine: &mut Machine<'a>,
    alloc: Global,
    name: &Name,
    member: &Name,
) -> Result<(), AllocError>
    ensures { OnOk result (shown machine.new ≡ uses_member name.now member.now (shown machine.old)) }
{
    match machine.kept {
        Some(kept) => {
            let value = copy_if(alloc, kept.member(name, member))?;
            machine.give(value)
        }
        None => evaluate_member(machine, alloc, name, member),
    }
}

/// Goes to the text of an enum's member.
fn evaluate_member<'a>(
    machine: &mut Machine<'a>,
    alloc: Global,
    name: &Name,
    member: &Name,
) -> Result<(), AllocError>
    ensures { OnOk result (shown machine.new ≡ member_from (one_less (shown machine.old).left) name.now member.now (shown machine.old)) }
{
    match one_left(machine.left) {
        Some(left) => match find_enum(machine.text.items.as_slice(), name) {
            Some(choice) => use_member_of(machine, alloc, left, choice, member),
            None => machine.give(None),
        },
        None => machine.give(None),
    }
}

fn use_member_of<'a>(
    machine: &mut Machine<'a>,
    alloc: Global,
    left: u64,
    choice: &'a Enum,
    member: &Name,
) -> Result<(), AllocError>
    ensures { OnOk result (shown machine.new ≡ at_member left choice.now (member_named member.now choice.now.members) (shown machine.old)) }
{
    match find_member(choice.members.as_slice(), member) {
        Some(member) => {
            go_to_item(machine, alloc, left)?;
            machine.type_then_type(
                alloc,
                &choice.base,
                TypeTask::FindMember(&member.value, &choice.name.name),
            )
        }
        None => machine.give(None),
    }
}

/// Finds the type of a struct.
pub fn use_struct<'a>(
    machine: &mut Machine<'a>,
    alloc: Global,
    name: &Name,
) -> Result<(), AllocError>
    ensures { OnOk result (shown machine.new ≡ uses_struct name.now (shown machine.old)) }
{
    if machine.hides(name) {
        machine.give_type(None)
    } else {
        find_struct_type(machine, alloc, name)
    }
}

fn find_struct_type<'a>(
    machine: &mut Machine<'a>,
    alloc: Global,
    name: &Name,
) -> Result<(), AllocError>
    ensures { OnOk result (shown machine.new ≡ struct_from (one_less (shown machine.old).left) name.now (shown machine.old)) }
{
    match one_left(machine.left) {
        Some(left) => match find_struct(machine.text.items.as_slice(), name) {
            Some(structure) => go_to_struct(machine, alloc, left, structure),
            None => machine.give_type(None),
        },
        None => machine.give_type(None),
    }
}

fn go_to_struct<'a>(
    machine: &mut Machine<'a>,
    alloc: Global,
    left: u64,
    structure: &'a Struct,
) -> Result<(), AllocError>
    ensures { OnOk result (shown machine.new ≡ at_struct left (Some structure.now) (shown machine.old)) }
{
    go_to_item(machine, alloc, left)?;
    gather_field_types(
        machine,
        alloc,
        Vec::new(alloc),
        structure.fields.as_slice(),
        structure,
    )
}

/// Finds the type that a name stands for.
pub(crate) fn use_type<'a>(
    machine: &mut Machine<'a>,
    alloc: Global,
    name: &Name,
) -> Result<(), AllocError>
    ensures { OnOk result (shown machine.new ≡ uses_type name.now (shown machine.old)) }
{
    if machine.hides(name) {
        machine.give_type(None)
    } else {
        find_named_type(machine, alloc, name)
    }
}

fn find_named_type<'a>(
    machine: &mut Machine<'a>,
    alloc: Global,
    name: &Name,
) -> Result<(), AllocError>
    ensures { OnOk result (shown machine.new ≡ type_from (one_less (shown machine.old).left) name.now (shown machine.old)) }
{
    match one_left(machine.left) {
        Some(left) => match find_item(machine.text.items.as_slice(), name) {
            Some(definition) => use_definition(machine, alloc, left, definition),
            None => machine.give_type(None),
        },
        None => machine.give_type(None),
    }
}

fn use_definition<'a>(
    machine: &mut Machine<'a>,
    alloc: Global,
    left: u64,
    definition: &'a Definition,
) -> Result<(), AllocError>
    ensures { OnOk result (shown machine.new ≡ at_type_item left (Some definition.now) (shown machine.old)) }
{
    match definition {
        Definition::Alias(alias) => {
            go_to_item(machine, alloc, left)?;
            machine.first_type(alloc, TypeTask::Find(&alias.ty))
        }
        Definition::Struct(structure) => go_to_struct(machine, alloc, left, structure),
        Definition::Enum(choice) => {
            go_to_item(machine, alloc, left)?;
            machine.type_then_type(alloc, &choice.base, TypeTask::MakeEnum(&choice.name.name))
        }
        _ => machine.give_type(None),
    }
}

/// Whether the first item of a name is a constant.
fn names_constant(items: &[Item], name: &Name) -> bool
    ensures { result ≡ is_constant_item (item_named name.now items.now) }
{
    match find_item(items, name) {
        Some(Definition::Constant(_)) => true,
        _ => false,
    }
}
