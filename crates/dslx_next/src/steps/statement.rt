//! Statements.

ghost use Rattle.std.specs.Prelude.{◌≡◌, List, map, IfOk};
ghost use Rattle.dslx_core.specs.Machines.Machine.Arms.{shaped_at};
ghost use Rattle.dslx_core.specs.Lowering.Functions.{CoreInstance};
ghost use Rattle.dslx_core.specs.Lowering.Patterns.{shaped};
ghost use Rattle.dslx_core.specs.Lowering.Steps.{binds_nothing};
ghost use Rattle.dslx_meaning.specs.Lists.{and_then};
ghost use Rattle.dslx_meaning.specs.Names.Bound.{given};
ghost use Rattle.dslx_next.specs.Opening.Works.{HasTable, scope_at};
ghost use Rattle.dslx_next.specs.Steps.Passing.{StepBinds, BodyPasses, act_at, statement_at};

use crate::opening::{NextScope, OpenStep, open_step, with_shape};
use dslx_core::machines::alike::lower_mono;
use dslx_core::{Shape, Step};
use dslx_instance::tasks::BodyWork;
use dslx_meaning::DslxType;
use dslx_scope_names::patterns::{BodyScope, bind_there};
use dslx_tree::{Expr, Pattern, Stmt};
use std::alloc::{AllocError, Global};

/// The step of a statement goes behind the others, and what it binds is bound.
pub(crate) fn pass_statement<'a>(
    alloc: Global,
    known: NextScope<'a>,
    steps: &mut Vec<Step>,
    work: BodyWork<'a>,
    statement: &'a Stmt,
) -> Result<Option<BodyWork<'a>>, AllocError>
    requires has_table { HasTable known work }
    ensures { IfOk result (λ o. BodyPasses known.entry (statement_at known.entry work.entry statement.now) steps.old.items work.entry steps.new.items o) }
{
    match statement {
        Stmt::Let(bind) => pass_let(alloc, known, steps, work, &bind.pattern, &bind.value),
        Stmt::Bare(value) => pass_bare(alloc, known, steps, work, value),
    }
}

fn pass_let<'a>(
    alloc: Global,
    known: NextScope<'a>,
    steps: &mut Vec<Step>,
    work: BodyWork<'a>,
    pattern: &'a Pattern,
    value: &'a Expr,
) -> Result<Option<BodyWork<'a>>, AllocError>
    requires has_table { HasTable known work }
    ensures { IfOk result (λ o. BodyPasses known.entry (act_at known.entry work.entry value.now (shaped_at pattern.now)) steps.old.items work.entry steps.new.items o) }
{
    lower_mono();
    match open_step(alloc, known, work, value)? {
        Some((opened, work)) => bind_step(alloc, known, steps, work, opened, pattern),
        None => Ok(None),
    }
}

/// An expression that binds nothing.
fn pass_bare<'a>(
    alloc: Global,
    known: NextScope<'a>,
    steps: &mut Vec<Step>,
    work: BodyWork<'a>,
    value: &'a Expr,
) -> Result<Option<BodyWork<'a>>, AllocError>
    requires has_table { HasTable known work }
    ensures { IfOk result (λ o. BodyPasses known.entry (act_at known.entry work.entry value.now binds_nothing) steps.old.items work.entry steps.new.items o) }
{
    lower_mono();
    match open_step(alloc, known, work, value)? {
        Some((opened, work)) => {
            steps.push(with_shape(opened.step, Shape::Wild))?;
            Ok(Some(work))
        }
        None => Ok(None),
    }
}

/// A step goes behind the others with what the pattern binds.
fn bind_step<'a>(
    alloc: Global,
    known: NextScope<'a>,
    steps: &mut Vec<Step>,
    mut work: BodyWork<'a>,
    opened: OpenStep,
    pattern: &'a Pattern,
) -> Result<Option<BodyWork<'a>>, AllocError>
    ensures { IfOk result (λ o. StepBinds known.entry (shaped_at pattern.now) opened steps.old.items work.entry steps.new.items o) }
{
    match bind_pattern(alloc, known, &mut work, pattern, &opened.ty)? {
        Some(shape) => {
            steps.push(with_shape(opened.step, shape))?;
            Ok(Some(work))
        }
        None => Ok(None),
    }
}

/// What the pattern is lowered to; its names are bound then.
fn bind_pattern<'a>(
    alloc: Global,
    known: NextScope<'a>,
    work: &mut BodyWork<'a>,
    pattern: &'a Pattern,
    ty: &DslxType,
) -> Result<Option<Shape>, AllocError>
    ensures bound { IfOk result (λ s. (table : List CoreInstance) → shaped_at pattern.now (scope_at known.entry work.old table) ty.now ≡ and_then s (λ s. shaped s (scope_at known.entry work.new table))) }
    ensures table { IfOk result (λ s. work.new.table ≡ work.old.table) }
    ensures parametric_args { IfOk result (λ s. map given work.new.given.items ≡ map given work.old.given.items) }
{
    let body = BodyScope {
        text: known.text,
        parametric_args: work.given.as_slice(),
    };
    match bind_there(alloc, body, &mut work.locals, work.count, pattern, ty)? {
        Some(bound) => {
            work.count = bound.count;
            Ok(Some(bound.shape))
        }
        None => Ok(None),
    }
}
