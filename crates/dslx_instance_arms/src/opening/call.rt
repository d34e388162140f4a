//! Calls of instances that are done, and what is still missing for one.

ghost use Rattle.std.specs.Prelude.{◌≡◌, Some, IfOk};
ghost use Rattle.dslx_meaning.specs.Lists.{where_true};
ghost use Rattle.dslx_core.specs.Machines.Machine.Bodies.{gives};
ghost use Rattle.dslx_instance_arms.specs.Opening.Done.{call_in, done_in, missing_for_task, missing_in};
ghost use Rattle.dslx_instance.specs.Tasks.Shown.{body_shown, task_shown};

use dslx_core::lowering::{CoreCallee, Instantiated, LoweredExpr};
use dslx_core_exprs::aggregates::types_of;
use dslx_core_exprs::calls::lower_call;
use dslx_instance::table::{InstanceTable, callee_there};
use dslx_instance::tasks::{CallTask, LowerTask, OpenBody};
use dslx_values::{copy_name, copy_values};
use std::alloc::{AllocError, Global};

/// A call of an instance that is done, with these operands, if they are of the types of its arguments.
pub fn make_call(
    body: &mut OpenBody,
    alloc: Global,
    table: &InstanceTable,
    instance: &Instantiated,
    operands: Vec<LoweredExpr>,
) -> Result<bool, AllocError>
    ensures { IfOk result (λ is. where_true is (Some (body_shown body.new)) ≡ gives (call_in table.now instance.now operands.items) (body_shown body.old)) }
{
    let made = call_of(alloc, table, instance, operands)?;
    body.give_if(made)
}

fn call_of(
    alloc: Global,
    table: &InstanceTable,
    instance: &Instantiated,
    operands: Vec<LoweredExpr>,
) -> Result<Option<LoweredExpr>, AllocError>
    ensures { IfOk result (λ e. e ≡ call_in table.now instance.now operands.items) }
{
    let types = types_of(alloc, operands.as_slice())?;
    let callee = callee_there(
        alloc,
        table,
        &instance.name,
        instance.parametric_args.as_slice(),
        types.as_slice(),
    )?;
    match callee {
        Some(CoreCallee { number, result }) => {
            Ok(Some(lower_call(alloc, number, operands, result)?))
        }
        None => Ok(None),
    }
}

/// Whether an instance is done.
pub fn is_done(table: &InstanceTable, instance: &Instantiated) -> bool
    ensures { result ≡ done_in table.now instance.now }
{
    table.has(&instance.name, instance.parametric_args.as_slice())
}

/// The instance that a task needs and that isn't done.
pub fn missing_for(
    alloc: Global,
    table: &InstanceTable,
    task: &LowerTask,
) -> Result<Option<Instantiated>, AllocError>
    ensures { IfOk result (λ i. i ≡ missing_for_task table.now (task_shown task.now)) }
{
    match task {
        LowerTask::Call(task) => match task.get() {
            CallTask::Need(instance) => missing(alloc, table, instance),
            CallTask::Call(instance, _) => missing(alloc, table, instance),
        },
        _ => Ok(None),
    }
}

#[tactic(auto, using(crate::proofs::OnOpening::Missing::is_there, crate::proofs::OnOpening::Missing::is_missing))]
fn missing(
    alloc: Global,
    table: &InstanceTable,
    instance: &Instantiated,
) -> Result<Option<Instantiated>, AllocError>
    ensures { IfOk result (λ i. i ≡ missing_in table.now instance.now) }
{
    if is_done(table, instance) {
        Ok(None)
    } else {
        Ok(Some(copy_instantiated(alloc, instance)?))
    }
}

fn copy_instantiated(alloc: Global, instance: &Instantiated) -> Result<Instantiated, AllocError>
    ensures { IfOk result (λ i. i ≡ instance.now) }
{
    Ok(Instantiated {
        name: copy_name(alloc, &instance.name)?,
        parametric_args: copy_values(alloc, instance.parametric_args.as_slice())?,
    })
}
