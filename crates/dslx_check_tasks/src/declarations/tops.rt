//! The top of a text.

ghost use Rattle.std.specs.Prelude.{IfOk};
ghost use Rattle.dslx_check_facts.specs.Walks.{shown};
ghost use Rattle.dslx_check_tasks.specs.Declarations.Judged.{JudgesTop};

use dslx_check_facts::{Facts, Walk};
use dslx_check_judge::instances::{declared_faults, proc_args, reach_proc};
use dslx_check_rules::Faults;
use dslx_check_uses::CalledItem;
use dslx_tree::Proc;
use std::alloc::AllocError;

/// What the defaults of the top's parametrics break. What they reach, and the top's instance, stand in the walk.
#[derive(Clone, Copy)]
pub struct TopSeen {
    pub faults: Faults,
}

/// The top, a proc of this number.
pub fn top_seen(f: &Facts, w: &mut Walk, item: u32, process: &Proc) -> Result<TopSeen, AllocError>
    ensures { IfOk result (λ t. JudgesTop f.now (shown w.old) (shown w.new) item process.now t) }
{
    let callee = CalledItem {
        item,
        is_cyclic: false,
        is_hidden: false,
    };
    let args = proc_args(f, w, callee, process, &[])?;
    let declared = declared_faults(callee, &args);
    reach_proc(f, w, callee, &args)?;
    Ok(TopSeen {
        faults: args.faults.and(declared),
    })
}
