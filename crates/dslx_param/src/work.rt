//! Expressions of a body that isn't a function's, as those of `next`.

ghost use Rattle.std.specs.Prelude.{◌≡◌, IfOk};
ghost use Rattle.dslx_meaning.specs.Items.{meanings_of};
ghost use Rattle.dslx_core.specs.Machines.Machine.Reached.{IsTable};
ghost use Rattle.dslx_param.specs.Works.{LowerResult, taken_from};

use crate::run::run;
use base::stacks::Stack;
use dslx_core::lowering::LoweredExpr;
use dslx_core::machines::alike::lower_mono;
use dslx_core::machines::once::each_instance_stands_once;
use dslx_instance::table::InstanceTable;
use dslx_instance::tasks::{BodyWork, InstanceMachine, LowerTask, OpenBody};
use dslx_tree::{Expr, Module};
use std::alloc::{AllocError, Global};

/// What an expression is lowered to, with the instances that it needs and no others; `None` only where it has no lowering by any table of at
/// most so many instances.
#[tactic(auto, using(crate::proofs::Lowered::lowers_made, crate::proofs::Lowered::lowers_none))]
pub fn lower_in<'a>(
    alloc: Global,
    text: &'a Module,
    limit: usize,
    work: BodyWork<'a>,
    expr: &'a Expr,
) -> Result<Option<(LoweredExpr, BodyWork<'a>)>, AllocError>
    ensures { IsTable text.now (meanings_of text.now) work.entry.table → IfOk result (λ o. LowerResult text.now limit work.entry expr.now o) }
{
    each_instance_stands_once();
    lower_mono();
    let mut todo = Stack::new(alloc);
    todo.push(LowerTask::Expr(expr))?;
    let mut machine = InstanceMachine {
        text,
        table: work.table,
        limit,
        root: OpenBody {
            given: work.given,
            todo,
            made: Stack::new(alloc),
            locals: work.locals,
            count: work.count,
        },
        opened: Stack::new(alloc),
    };
    if run(&mut machine, alloc)? {
        Ok(taken(machine.table, machine.root))
    } else {
        Ok(None)
    }
}

/// What was made, and what is left as it was.
fn taken<'a>(table: InstanceTable, root: OpenBody<'a>) -> Option<(LoweredExpr, BodyWork<'a>)>
    ensures { result ≡ taken_from table root.entry root.entry.made }
{
    let OpenBody {
        given,
        mut made,
        locals,
        count,
        ..
    } = root;
    match made.take_off() {
        Some(expr) => Some((
            expr,
            BodyWork {
                table,
                given,
                locals,
                count,
            },
        )),
        None => None,
    }
}
