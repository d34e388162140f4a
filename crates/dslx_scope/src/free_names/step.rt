//! Statements, arms, and which step is taken.

ghost use Rattle.std.specs.Prelude.{◌≡◌, OnOk};
ghost use Rattle.dslx_scope.specs.FreeNames.Plain.{shown, plain_task};
ghost use Rattle.dslx_scope.specs.FreeNames.Steps.{block_opens, statements_open, stmt_opens, arms_open, arm_opens, value_behind, visited};
ghost use Rattle.dslx_tree.specs.declared.block.Stmt.{out-Stmt};

use crate::free_names::machine::Machine;
use crate::free_names::node::{open_args, open_expr, open_exprs, open_fields};
use crate::free_names::pattern::{
    bind_pattern, bind_patterns, open_pattern, open_patterns, open_type, open_types,
};
use crate::free_names::task::Task;
use dslx_tree::{Arm, Block, Expr, Pattern, Stmt};
use std::alloc::AllocError;
use xb_value::Boxed;

/// Visits what a task says.
pub(crate) fn step<'a>(machine: &mut Machine<'a>, task: Task<'a>) -> Result<(), AllocError>
    ensures { OnOk result (shown machine.new ≡ visited (plain_task task.entry) (shown machine.old)) }
{
    match task {
        Task::Expr(expr) => open_expr(machine, expr),
        Task::Exprs(exprs) => open_exprs(machine, exprs),
        Task::Args(args) => open_args(machine, args),
        Task::Fields(fields) => open_fields(machine, fields),
        Task::Type(ty) => open_type(machine, ty),
        Task::Types(types) => open_types(machine, types),
        Task::Block(block) => open_block(machine, block),
        Task::Statements(statements, last) => open_statements(machine, statements, last),
        Task::Arms(arms) => open_arms(machine, arms),
        Task::Pattern(pattern) => open_pattern(machine, pattern),
        Task::Patterns(patterns) => open_patterns(machine, patterns),
        Task::Bind(pattern) => bind_pattern(machine, pattern),
        Task::BindAll(patterns) => bind_patterns(machine, patterns),
        Task::KeepFirst(count) => machine.keep_first(count),
    }
}

/// Visits the parts of a block, behind which its names are forgotten.
fn open_block<'a>(machine: &mut Machine<'a>, block: &'a Block) -> Result<(), AllocError>
    ensures { OnOk result (shown machine.new ≡ block_opens block.now (shown machine.old)) }
{
    let keep = machine.keep();
    machine.both(
        Task::Statements(block.statements.as_slice(), &block.value),
        keep,
    )
}

/// Visits statements in order, and then the last expression.
fn open_statements<'a>(
    machine: &mut Machine<'a>,
    statements: &'a [Stmt],
    last: &'a Option<Boxed<Expr>>,
) -> Result<(), AllocError>
    ensures { OnOk result (shown machine.new ≡ statements_open statements.now last.now (shown machine.old)) }
{
    match statements {
        [statement, rest @ ..] => {
            machine.first(Task::Statements(rest, last))?;
            open_stmt(machine, statement)
        }
        [] => machine.expr_first(last),
    }
}

/// Visits the parts of a statement, and binds what it binds.
fn open_stmt<'a>(machine: &mut Machine<'a>, statement: &'a Stmt) -> Result<(), AllocError>
    ensures { OnOk result (shown machine.new ≡ stmt_opens (out-Stmt statement.now) (shown machine.old)) }
{
    match statement {
        Stmt::Let(bind) => {
            machine.three(
                Task::Expr(&bind.value),
                Task::Pattern(&bind.pattern),
                Task::Bind(&bind.pattern),
            )?;
            machine.type_first(&bind.ty)
        }
        Stmt::Bare(expr) => machine.first(Task::Expr(expr)),
    }
}

/// Visits arms in order.
fn open_arms<'a>(machine: &mut Machine<'a>, arms: &'a [Arm]) -> Result<(), AllocError>
    ensures { OnOk result (shown machine.new ≡ arms_open arms.now (shown machine.old)) }
{
    match arms {
        [arm, rest @ ..] => {
            machine.first(Task::Arms(rest))?;
            open_arm(machine, arm)
        }
        [] => Ok(()),
    }
}

/// Visits the patterns of an arm, and then its value.
fn open_arm<'a>(machine: &mut Machine<'a>, arm: &'a Arm) -> Result<(), AllocError>
    ensures { OnOk result (shown machine.new ≡ arm_opens arm.now (shown machine.old)) }
{
    open_value(machine, arm.patterns.as_slice(), &arm.value)?;
    machine.first(Task::Patterns(arm.patterns.as_slice()))
}

/// Visits the value of an arm, which sees what its pattern binds if it has just one.
fn open_value<'a>(
    machine: &mut Machine<'a>,
    patterns: &'a [Pattern],
    value: &'a Expr,
) -> Result<(), AllocError>
    ensures { OnOk result (shown machine.new ≡ value_behind patterns.now value.now (shown machine.old)) }
{
    match patterns {
        [pattern] => {
            let keep = machine.keep();
            machine.three(Task::Bind(pattern), Task::Expr(value), keep)
        }
        _ => machine.first(Task::Expr(value)),
    }
}
