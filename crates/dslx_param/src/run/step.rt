//! The tasks of a body.

ghost use Rattle.std.specs.Prelude.{◌≡◌, List, Some, IfOk};
ghost use Rattle.dslx_meaning.specs.Lists.{where_true};
ghost use Rattle.dslx_core.specs.Lowering.Functions.{CoreInstance};
ghost use Rattle.dslx_core.specs.Machines.Machine.Steps.{statements_begin, stepped};
ghost use Rattle.dslx_instance.specs.Tasks.Shown.{arms_task_shown, block_task_shown, body_shown, loop_task_shown, parts_task_shown, instance_env_of, task_shown};

use crate::run::make::make_last;
use crate::run::node::begin_node;
use dslx_instance::table::InstanceTable;
use dslx_instance::tasks::{
    ArmsTask, BlockTask, CallTask, LoopTask, LowerTask, OpenBody, PartsTask,
};
use dslx_instance_arms::opening::{is_done, make_call};
use dslx_instance_arms::{begin_arms, bind_value, make_loop, start_loop, take_arm};
use dslx_instance_parts::{begin_statements, make_bind, take_field, take_others, take_part};
use dslx_tree::{Expr, Module, Stmt};
use std::alloc::{AllocError, Global};
use xb_value::Boxed;

/// Does a task, with the instances that are done; whether there is such a step.
#[tactic(auto, using(crate::proofs::OnRun::Needed::is_there))]
pub(crate) fn step_body<'a>(
    body: &mut OpenBody<'a>,
    alloc: Global,
    text: &'a Module,
    table: &InstanceTable,
    task: LowerTask<'a>,
) -> Result<bool, AllocError>
    ensures { IfOk result (λ is. where_true is (Some (body_shown body.new)) ≡ stepped (task_shown task.entry) (instance_env_of text.now table.now) (body_shown body.old)) }
{
    match task {
        LowerTask::Expr(expr) => begin_node(body, alloc, text, expr),
        LowerTask::Block(task) => step_block(body, alloc, text, task.into_inner()),
        LowerTask::Bind(value, shape) => make_bind(body, alloc, value.into_inner(), shape),
        LowerTask::Parts(task) => step_parts(body, alloc, text, task.into_inner()),
        LowerTask::Arms(task) => step_arms(body, alloc, text, task.into_inner()),
        LowerTask::Loop(task) => step_loop(body, alloc, text, task.into_inner()),
        LowerTask::Restore(names, count) => {
            body.restore(names, count);
            Ok(true)
        }
        LowerTask::Call(task) => match task.into_inner() {
            CallTask::Need(instance) => Ok(is_done(table, &instance)),
            CallTask::Call(instance, operands) => {
                make_call(body, alloc, table, &instance, operands)
            }
        },
    }
}

fn step_block<'a>(
    body: &mut OpenBody<'a>,
    alloc: Global,
    text: &'a Module,
    task: BlockTask<'a>,
) -> Result<bool, AllocError>
    ensures { IfOk result (λ is. (table : List CoreInstance) → where_true is (Some (body_shown body.new)) ≡ stepped (block_task_shown task.entry) (instance_env_of text.now table) (body_shown body.old)) }
{
    match task {
        BlockTask::Block(block) => {
            first_statements(body, alloc, block.statements.as_slice(), &block.value)
        }
        BlockTask::Statements(statements, last) => {
            first_statements(body, alloc, statements, last)
        }
        BlockTask::Make(maker) => make_last(body, alloc, text, maker),
        BlockTask::BindValue(pattern, rest, last) => {
            bind_value(body, alloc, text, pattern, rest, last)
        }
    }
}

fn first_statements<'a>(
    body: &mut OpenBody<'a>,
    alloc: Global,
    statements: &'a [Stmt],
    last: &'a Option<Boxed<Expr>>,
) -> Result<bool, AllocError>
    ensures { IfOk result (λ is. where_true is (Some (body_shown body.new)) ≡ statements_begin statements.now last.now (body_shown body.old)) }
{
    begin_statements(body, alloc, statements, last)?;
    Ok(true)
}

fn step_parts<'a>(
    body: &mut OpenBody<'a>,
    alloc: Global,
    text: &'a Module,
    task: PartsTask<'a>,
) -> Result<bool, AllocError>
    ensures { IfOk result (λ is. (table : List CoreInstance) → where_true is (Some (body_shown body.new)) ≡ stepped (parts_task_shown task.entry) (instance_env_of text.now table) (body_shown body.old)) }
{
    match task {
        PartsTask::Gather(before, rest, maker) => {
            take_part(body, alloc, text, before, rest, maker)
        }
        PartsTask::TakeOthers(ty, names, types, written) => {
            take_others(body, alloc, text, ty, names, types, written)
        }
        PartsTask::GatherFields(work, before, ty, names, types) => {
            take_field(body, alloc, text, work, before, ty, names, types)
        }
    }
}

fn step_arms<'a>(
    body: &mut OpenBody<'a>,
    alloc: Global,
    text: &'a Module,
    task: ArmsTask<'a>,
) -> Result<bool, AllocError>
    ensures { IfOk result (λ is. (table : List CoreInstance) → where_true is (Some (body_shown body.new)) ≡ stepped (arms_task_shown task.entry) (instance_env_of text.now table) (body_shown body.old)) }
{
    match task {
        ArmsTask::Arms(arms) => begin_arms(body, alloc, text, arms),
        ArmsTask::TakeArm(work, shapes) => take_arm(body, alloc, text, work, shapes),
    }
}

fn step_loop<'a>(
    body: &mut OpenBody<'a>,
    alloc: Global,
    text: &'a Module,
    task: LoopTask<'a>,
) -> Result<bool, AllocError>
    ensures { IfOk result (λ is. (table : List CoreInstance) → where_true is (Some (body_shown body.new)) ≡ stepped (loop_task_shown task.entry) (instance_env_of text.now table) (body_shown body.old)) }
{
    match task {
        LoopTask::Begin(turns) => start_loop(body, alloc, text, turns),
        LoopTask::Make(start, from, to, index, accumulator) => {
            make_loop(body, alloc, start, from, to, index, accumulator)
        }
    }
}
