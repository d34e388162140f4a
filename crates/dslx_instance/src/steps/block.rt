//! Blocks, and values that are bound in them.

ghost use Rattle.std.specs.Prelude.{◌≡◌, Some, IfOk, OnOk};
ghost use Rattle.dslx_tree.specs.declared.block.Stmt.{out-Stmt};
ghost use Rattle.dslx_meaning.specs.Lists.{where_true};
ghost use Rattle.dslx_core.specs.Machines.Machine.Bodies.{gives, with_last, with_made};
ghost use Rattle.dslx_core.specs.Machines.Machine.Steps.{bind_made, last_begins, statements_begin, stmt_begins};
ghost use Rattle.dslx_instance.specs.Tasks.Shown.{body_shown};

use crate::tasks::{BlockTask, LowerTask, OpenBody};
use dslx_core::Shape;
use dslx_core::lowering::LoweredExpr;
use dslx_core_exprs::control::lower_bind;
use dslx_core_exprs::types::lower_unit;
use dslx_tree::{Expr, Stmt};
use std::alloc::{AllocError, Global};
use xb_value::Boxed;

/// The statements of a block are to be lowered, and then what stands behind them.
pub fn begin_statements<'a>(
    body: &mut OpenBody<'a>,
    alloc: Global,
    statements: &'a [Stmt],
    last: &'a Option<Boxed<Expr>>,
) -> Result<(), AllocError>
    ensures { OnOk result (Some (body_shown body.new) ≡ statements_begin statements.now last.now (body_shown body.old)) }
{
    match statements {
        [] => begin_last(body, alloc, last),
        [first, rest @ ..] => begin_statement(body, alloc, first, rest, last),
    }
}

fn begin_last<'a>(
    body: &mut OpenBody<'a>,
    alloc: Global,
    last: &'a Option<Boxed<Expr>>,
) -> Result<(), AllocError>
    ensures { OnOk result (Some (body_shown body.new) ≡ last_begins last.now (body_shown body.old)) }
{
    match last {
        Some(expr) => body.first(LowerTask::Expr(expr.get())),
        None => body.give(lower_unit(alloc)?),
    }
}

/// The value of a statement that is an expression alone isn't used, so that it isn't lowered.
fn begin_statement<'a>(
    body: &mut OpenBody<'a>,
    alloc: Global,
    statement: &'a Stmt,
    rest: &'a [Stmt],
    last: &'a Option<Boxed<Expr>>,
) -> Result<(), AllocError>
    ensures { OnOk result (Some (body_shown body.new) ≡ stmt_begins (out-Stmt statement.now) rest.now last.now (body_shown body.old)) }
{
    match statement {
        Stmt::Let(binding) => body.expr_then_block(
            alloc,
            &binding.value,
            BlockTask::BindValue(&binding.pattern, rest, last),
        ),
        Stmt::Bare(_) => body.first_block(alloc, BlockTask::Statements(rest, last)),
    }
}

/// A value is bound, and taken apart so, for what was made last; whether anything was.
pub fn make_bind<'a>(
    body: &mut OpenBody<'a>,
    alloc: Global,
    value: LoweredExpr,
    shape: Shape,
) -> Result<bool, AllocError>
    ensures { IfOk result (λ is. where_true is (Some (body_shown body.new)) ≡ with_last (body_shown body.old).made (λ r made. gives (bind_made value shape r) (with_made made (body_shown body.old)))) }
{
    match body.made.take_off() {
        Some(last) => {
            body.give(bound(alloc, value, shape, last)?)?;
            Ok(true)
        }
        None => Ok(false),
    }
}

fn bound(
    alloc: Global,
    value: LoweredExpr,
    shape: Shape,
    last: LoweredExpr,
) -> Result<LoweredExpr, AllocError>
    ensures { IfOk result (λ e. Some e ≡ bind_made value shape last) }
{
    lower_bind(alloc, value.core, shape, last)
}
