//! The body of a `next`.

ghost use Rattle.std.specs.Prelude.{IfOk};
ghost use Rattle.dslx_param.specs.Needed.{TableMakes};
ghost use Rattle.dslx_next.specs.Opening.Works.{HasTable, BodyMakes};
ghost use Rattle.dslx_next.specs.Steps.Passing.{BodyPasses, HasOneState, body_at, last_at, statements_at};

use crate::opening::{NextScope, lower};
use crate::steps::statement::pass_statement;
use dslx_core::Step;
use dslx_core::lowering::{LoweredExpr, LoweredSteps};
use dslx_core_exprs::types::lower_unit;
use dslx_instance::table::InstanceTable;
use dslx_instance::tasks::BodyWork;
use dslx_tree::{Block, Expr, Stmt};
use std::alloc::{AllocError, Global};
use xb_value::{Boxed, Seq};

/// The steps of the statements, and the state behind them, which is the value of the last expression.
pub(crate) fn lower_body<'a>(
    alloc: Global,
    known: NextScope<'a>,
    work: BodyWork<'a>,
    body: &'a Block,
) -> Result<Option<(LoweredSteps, InstanceTable)>, AllocError>
    requires has_table { HasTable known work }
    ensures comes { IfOk result (λ o. TableMakes known.entry.text.now known.entry.limit work.entry.table (body_at known.entry work.entry body.now) o) }
    ensures one_state { IfOk result (λ o. HasOneState known.entry work.entry body.now o) }
{
    let mut steps = Vec::new(alloc);
    let Some(work) = pass_statements(alloc, known, &mut steps, work, body.statements.as_slice())?
    else {
        return Ok(None);
    };
    match lower_last(alloc, known, work, &body.value)? {
        Some((next, work)) => Ok(Some((
            LoweredSteps {
                steps: Seq::from_vec(steps),
                next,
            },
            work.table,
        ))),
        None => Ok(None),
    }
}

/// The steps of the statements in order go behind the others.
fn pass_statements<'a>(
    alloc: Global,
    known: NextScope<'a>,
    steps: &mut Vec<Step>,
    mut work: BodyWork<'a>,
    statements: &'a [Stmt],
) -> Result<Option<BodyWork<'a>>, AllocError>
    requires has_table { HasTable known work }
    ensures { IfOk result (λ o. BodyPasses known.entry (statements_at known.entry work.entry statements.now) steps.old.items work.entry steps.new.items o) }
{
    'statements: for statement in statements {
        match pass_statement(alloc, known, steps, work, statement)? {
            Some(behind) => work = behind,
            None => return Ok(None),
        }
    }
    Ok(Some(work))
}

/// The value of the last expression; `()` without one.
#[tactic(auto, using(crate::proofs::OnOpening::Sequels::nothing_added))]
fn lower_last<'a>(
    alloc: Global,
    known: NextScope<'a>,
    work: BodyWork<'a>,
    last: &'a Option<Boxed<Expr>>,
) -> Result<Option<(LoweredExpr, BodyWork<'a>)>, AllocError>
    requires has_table { HasTable known work }
    ensures { IfOk result (λ o. BodyMakes known.entry work.entry (last_at known.entry work.entry last.now) o) }
{
    match last {
        Some(expr) => lower(alloc, known, work, expr.get()),
        None => Ok(Some((lower_unit(alloc)?, work))),
    }
}
