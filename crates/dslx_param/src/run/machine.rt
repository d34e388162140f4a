//! Steps of the machine: it goes on in the instance that was opened last, closes it where nothing is left to be done in it, or
//! opens one that is needed first.

ghost use Rattle.std.specs.Prelude.{◌≡◌, Some, IfOk};
ghost use Rattle.std.specs.Option.{option_map};
ghost use Rattle.dslx_meaning.specs.Lists.{where_true};
ghost use Rattle.dslx_core.specs.Machines.Machine.Machines.{in_instance, in_root, instance_stepped, machine_stepped, missing_for as the_missing, opens, root_stepped};
ghost use Rattle.dslx_instance.specs.Tasks.Shown.{instance_shown, machine_shown, task_shown};
ghost use Rattle.dslx_param.specs.Run.Inner.Opened.{opened_within, with_opened, with_root_task, with_task};

use crate::run::step::step_body;
use dslx_core::lowering::Instantiated;
use dslx_instance::tasks::{InstanceMachine, LowerTask, OpenInstance};
use dslx_instance_arms::opening::{close_instance, missing_for, open_instance};
use std::alloc::{AllocError, Global};

/// One step; whether there is such.
pub(crate) fn step<'a>(machine: &mut InstanceMachine<'a>, alloc: Global) -> Result<bool, AllocError>
    ensures { IfOk result (λ is. where_true is (Some (machine_shown machine.new)) ≡ machine_stepped (machine_shown machine.old)) }
{
    match machine.opened.take_off() {
        Some(last) => step_instance(machine, alloc, last),
        None => step_root(machine, alloc),
    }
}

/// A step in the instance that was opened last, which is taken from the others.
fn step_instance<'a>(
    machine: &mut InstanceMachine<'a>,
    alloc: Global,
    last: OpenInstance<'a>,
) -> Result<bool, AllocError>
    ensures { IfOk result (λ is. where_true is (Some (machine_shown machine.new)) ≡ instance_stepped (instance_shown last.entry).body.todo (instance_shown last.entry) (machine_shown machine.old).opened (with_opened (instance_shown last.entry) (machine_shown machine.old))) }
{
    let mut last = last;
    match last.body.todo.take_off() {
        Some(task) => do_task(machine, alloc, last, task),
        None => close_instance(machine, last),
    }
}

/// The next task of an instance.
fn do_task<'a>(
    machine: &mut InstanceMachine<'a>,
    alloc: Global,
    last: OpenInstance<'a>,
    task: LowerTask<'a>,
) -> Result<bool, AllocError>
    ensures { IfOk result (λ is. where_true is (Some (machine_shown machine.new)) ≡ in_instance (the_missing (task_shown task.entry) (machine_shown machine.old).context) (task_shown task.entry) (instance_shown last.entry).body.todo (with_task (task_shown task.entry) (instance_shown last.entry)) (machine_shown machine.old).opened (with_opened (with_task (task_shown task.entry) (instance_shown last.entry)) (machine_shown machine.old))) }
{
    let mut last = last;
    match missing_for(alloc, &machine.table, &task)? {
        Some(needed) => {
            last.body.todo.push(task)?;
            machine.opened.push(last)?;
            open_needed(machine, alloc, needed)
        }
        None => {
            let goes = step_body(&mut last.body, alloc, machine.text, &machine.table, task)?;
            machine.opened.push(last)?;
            Ok(goes)
        }
    }
}

fn step_root<'a>(machine: &mut InstanceMachine<'a>, alloc: Global) -> Result<bool, AllocError>
    ensures { IfOk result (λ is. where_true is (Some (machine_shown machine.new)) ≡ root_stepped (machine_shown machine.old).root.todo (machine_shown machine.old)) }
{
    match machine.root.todo.take_off() {
        Some(task) => do_root_task(machine, alloc, task),
        None => Ok(true),
    }
}

/// The next task of what the machine lowers.
fn do_root_task<'a>(
    machine: &mut InstanceMachine<'a>,
    alloc: Global,
    task: LowerTask<'a>,
) -> Result<bool, AllocError>
    ensures { IfOk result (λ is. where_true is (Some (machine_shown machine.new)) ≡ in_root (the_missing (task_shown task.entry) (machine_shown machine.old).context) (task_shown task.entry) (machine_shown machine.old).root.todo (with_root_task (task_shown task.entry) (machine_shown machine.old))) }
{
    match missing_for(alloc, &machine.table, &task)? {
        Some(needed) => {
            machine.root.todo.push(task)?;
            open_needed(machine, alloc, needed)
        }
        None => step_body(&mut machine.root, alloc, machine.text, &machine.table, task),
    }
}

/// Opens an instance, unless too many are open.
fn open_needed<'a>(
    machine: &mut InstanceMachine<'a>,
    alloc: Global,
    needed: Instantiated,
) -> Result<bool, AllocError>
    ensures { IfOk result (λ is. where_true is (Some (machine_shown machine.new)) ≡ opens needed (machine_shown machine.old)) }
{
    let opened = open_instance(alloc, machine.text, needed)?;
    push_opened(machine, opened)
}

/// Goes on in this instance, if there is one and not too many are open.
#[tactic(auto, using(crate::proofs::OnRun::Opening::none_opened))]
fn push_opened<'a>(
    machine: &mut InstanceMachine<'a>,
    opened: Option<OpenInstance<'a>>,
) -> Result<bool, AllocError>
    ensures { IfOk result (λ is. where_true is (Some (machine_shown machine.new)) ≡ opened_within (option_map instance_shown opened.entry) (machine_shown machine.old)) }
{
    match opened {
        Some(opened) => {
            if machine.opened.len() < machine.limit {
                machine.opened.push(opened)?;
                Ok(true)
            } else {
                Ok(false)
            }
        }
        None => Ok(false),
    }
}
