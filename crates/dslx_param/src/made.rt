ghost use Rattle.std.specs.Prelude.{◌≡◌, ◌∷◌, [], IfOk};
ghost use Rattle.dslx_meaning.specs.Items.{meanings_of};
ghost use Rattle.dslx_core.specs.Machines.Machine.Machines.{needing};
ghost use Rattle.dslx_core.specs.Machines.Machine.Reached.{IsTable};
ghost use Rattle.dslx_instance.specs.Tasks.Shown.{body_shown};
ghost use Rattle.dslx_param.specs.Made.{Adds};

use crate::run::run;
use base::stacks::Stack;
use dslx_core::lowering::Instantiated;
use dslx_core::machines::alike::lower_mono;
use dslx_core::machines::once::each_instance_stands_once;
use dslx_instance::table::InstanceTable;
use dslx_instance::tasks::{CallTask, InstanceMachine, LowerTask, OpenBody};
use dslx_scope::locals::Locals;
use dslx_tree::Module;
use std::alloc::{AllocError, Global};

/// The instances that one of a function needs, and that one; `None` where no table of at most so many instances has it.
/// Which instances of a checked text have one is said by `dslx_total::instances`; a text that breaks a rule isn't refused for it here.
///
/// In a table that is given each instance stands once, and each table that has the one that is wanted has all of them. There may be more than
/// `limit`: at most so many are open at once, so at most so many calls lead to each.
///
/// Each instance is made once, in time as its body has parts, besides what its constants cost (`dslx_const`). An instance is looked up
/// by a hash. Memory is taken for the instances and for what is open at once.
#[tactic(auto, using(crate::proofs::Adding::empty_is_table))]
pub fn instance(
    alloc: Global,
    text: &Module,
    limit: usize,
    wanted: Instantiated,
) -> Result<Option<InstanceTable>, AllocError>
    ensures { IfOk result (λ made. Adds text.now [] limit wanted made) }
{
    add_instance(alloc, text, limit, InstanceTable::new(alloc), wanted)
}

/// The same where some instances are made already: those that are missing stand behind them, and no others.
#[tactic(auto, using(crate::proofs::Adding::adds_made, crate::proofs::Adding::adds_none))]
pub fn add_instance(
    alloc: Global,
    text: &Module,
    limit: usize,
    table: InstanceTable,
    wanted: Instantiated,
) -> Result<Option<InstanceTable>, AllocError>
    ensures { IsTable text.now (meanings_of text.now) table → IfOk result (λ made. Adds text.now table limit wanted made) }
{
    each_instance_stands_once();
    lower_mono();
    let mut machine = InstanceMachine {
        text,
        table,
        limit,
        root: needing_body(alloc, wanted)?,
        opened: Stack::new(alloc),
    };
    if run(&mut machine, alloc)? {
        Ok(Some(machine.table))
    } else {
        Ok(None)
    }
}

/// A body in which an instance is needed, and nothing else.
fn needing_body<'a>(alloc: Global, wanted: Instantiated) -> Result<OpenBody<'a>, AllocError>
    ensures { IfOk result (λ body. body_shown body ≡ needing wanted) }
{
    let mut todo = Stack::new(alloc);
    todo.push(LowerTask::call(alloc, CallTask::Need(wanted))?)?;
    Ok(OpenBody {
        given: Vec::new(alloc),
        todo,
        made: Stack::new(alloc),
        locals: Locals::new(alloc),
        count: 0,
    })
}
