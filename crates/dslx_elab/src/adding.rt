//! Instances of procs that are added to others.

ghost use Rattle.std.specs.Prelude.{◌≡◌, ◌∷◌, ◌++◌, [], IfOk};
ghost use Rattle.dslx_core.specs.Machines.Machine.Reached.{IsTable};
ghost use Rattle.dslx_meaning.specs.Items.{meanings_of};
ghost use Rattle.dslx_core.specs.Networks.Procs.{next_proc};
ghost use Rattle.dslx_param.specs.Needed.{TableMakes};
ghost use Rattle.dslx_elab.specs.Adding.{AddsMissing, AddsProc, KeepsTable};

use crate::instance::proc_there;
use dslx_config::configs::{find_proc, instance_number};
use dslx_core::lowering::Instantiated;
use dslx_core::networks::ProcInstance;
use dslx_instance::table::InstanceTable;
use dslx_tree::Module;
use std::alloc::{AllocError, Global};

/// What is made of a text: instances of functions, each of which calls those before it, and of procs, each of which spawns those before
/// it.
#[derive(Drop)]
pub struct MadeInstances {
    pub functions: InstanceTable,
    pub procs: Vec<ProcInstance>,
}

/// The instances with one of a proc, which is made where it isn't there yet, with the instances of functions that it needs, each once, and no
/// others; `None` only where it has no lowering by any table of at most `limit` instances of functions, as where a proc that it spawns isn't there.
///
/// It looks at all procs that are there, and takes the time of `instance` and of the constants for what is made.
pub fn add_proc(
    alloc: Global,
    text: &Module,
    limit: usize,
    made: MadeInstances,
    wanted: Instantiated,
) -> Result<Option<MadeInstances>, AllocError>
    requires is_table { IsTable text.now (meanings_of text.now) made.functions }
    ensures adds { IfOk result (λ o. AddsProc text.now limit made wanted o) }
    ensures table { IfOk result (λ o. KeepsTable text.now o) }
{
    match instance_number(
        made.procs.as_slice(),
        &wanted.name,
        wanted.parametric_args.as_slice(),
    ) {
        Some(_) => Ok(Some(made)),
        None => add_missing(alloc, text, limit, made, wanted),
    }
}

/// The same where it isn't there yet.
fn add_missing(
    alloc: Global,
    text: &Module,
    limit: usize,
    made: MadeInstances,
    wanted: Instantiated,
) -> Result<Option<MadeInstances>, AllocError>
    requires is_table { IsTable text.now (meanings_of text.now) made.functions }
    ensures { IfOk result (λ o. AddsMissing text.now limit made wanted o) }
{
    let MadeInstances {
        functions,
        mut procs,
    } = made;
    match next_instance(alloc, text, limit, functions, procs.as_slice(), wanted)? {
        Some((instance, functions)) => {
            procs.push(instance)?;
            Ok(Some(MadeInstances { functions, procs }))
        }
        None => Ok(None),
    }
}

/// The instance, with the instances of functions that it needs behind those that are made.
fn next_instance(
    alloc: Global,
    text: &Module,
    limit: usize,
    functions: InstanceTable,
    procs: &[ProcInstance],
    wanted: Instantiated,
) -> Result<Option<(ProcInstance, InstanceTable)>, AllocError>
    requires is_table { IsTable text.now (meanings_of text.now) functions }
    ensures { IfOk result (λ o. TableMakes text.now limit functions (λ table. next_proc text.now (meanings_of text.now) table procs.now wanted) o) }
{
    let Some(process) = find_proc(text.items.as_slice(), &wanted.name) else {
        return Ok(None);
    };
    match proc_there(
        alloc,
        text,
        limit,
        functions,
        procs,
        process,
        wanted.parametric_args.as_slice(),
    )? {
        Some((instance, functions)) => {
            let made = ProcInstance {
                name: wanted.name,
                parametric_args: wanted.parametric_args,
                instance,
            };
            Ok(Some((made, functions)))
        }
        None => Ok(None),
    }
}
