ghost use Rattle.std.specs.Prelude.{◌≡◌, OnOk};
ghost use Rattle.dslx_meaning.specs.Names.ConstMachine.Steps.{stepped};
ghost use Rattle.dslx_const_tasks.specs.Plain.{shown, plain_task};

use crate::calls::step_call;
use crate::lists::step_list;
use crate::node::begin_node;
use dslx_const_patterns::blocks::step_value;
use dslx_const_patterns::step_choice;
use dslx_const_tasks::items::step_type;
use dslx_const_tasks::{Machine, Task};
use std::alloc::{AllocError, Global};

/// Does a task.
pub(crate) fn step<'a>(
    machine: &mut Machine<'a>,
    alloc: Global,
    task: Task<'a>,
) -> Result<(), AllocError>
    ensures { OnOk result (shown machine.new ≡ stepped (plain_task task.entry) (shown machine.old)) }
{
    match task {
        Task::Eval(expr) => begin_node(machine, alloc, expr),
        Task::Value(task) => step_value(machine, alloc, task.into_inner()),
        Task::List(task) => step_list(machine, alloc, task.into_inner()),
        Task::Choice(task) => step_choice(machine, alloc, task.into_inner()),
        Task::Type(task) => step_type(machine, alloc, task.into_inner()),
        Task::Call(task) => step_call(machine, alloc, task.into_inner()),
    }
}
