//! The checked text of instances of a text's procs.

ghost use Rattle.std.specs.Prelude.{◌≡◌, Some, IfOk};
ghost use Rattle.dslx_meaning.specs.Items.{item_named};
ghost use Rattle.dslx_meaning.specs.Network.{as_proc};
ghost use Rattle.dslx_core.specs.Networks.Assembly.{instances_alone};
ghost use Rattle.dslx_elab.specs.Adding.{KeepsTable};
ghost use Rattle.dslx_elab.specs.Assembling.{AddsAll, Assembles, is_last_of, is_of_proc};

use crate::adding::{MadeInstances, add_proc};
use dslx_config::configs::{outers_there, top_parametric_args};
use dslx_core::lowering::Instantiated;
use dslx_core::networks::ProcInstance;
use dslx_core::{Design, Instance};
use dslx_instance::table::InstanceTable;
use dslx_meaning::DslxValue;
use dslx_tree::{Module, Proc};
use dslx_values::{copy_name, copy_values, equal_values};
use std::alloc::{AllocError, Global};
use xb_value::Seq;

/// The checked text of the instances with these names and parametric arguments, each behind those that it spawns, the top's at the end; with
/// the instances of functions that they need. `None` where one of them isn't there (`Assembles`).
///
/// It takes the time of `add_proc` for each.
pub fn design_of<'a>(
    alloc: Global,
    text: &'a Module,
    top: &'a Proc,
    limit: usize,
    wanted: &[Instantiated],
) -> Result<Option<Design>, AllocError>
    requires item { as_proc (item_named (top.now.name).name text.now.items) ≡ Some top.now }
    ensures { IfOk result (λ o. Assembles text.now top.now limit wanted.now o) }
{
    let Some(outer) = outers_there(alloc, text, top)? else {
        return Ok(None);
    };
    let Some(made) = add_all(alloc, text, limit, wanted)? else {
        return Ok(None);
    };
    let parametric_args = top_parametric_args(alloc, text, top)?;
    if !is_last_of(made.procs.as_slice(), top, parametric_args.as_slice()) {
        return Ok(None);
    }
    let name = copy_name(alloc, &top.name.name)?;
    let MadeInstances { functions, procs } = made;
    let functions = functions.into_functions(alloc)?;
    let procs = instances_alone(alloc, procs)?;
    Ok(Some(Design {
        name,
        outer,
        functions,
        procs,
    }))
}

/// The instances, one after the other.
fn add_all(
    alloc: Global,
    text: &Module,
    limit: usize,
    wanted: &[Instantiated],
) -> Result<Option<MadeInstances>, AllocError>
    ensures adds { IfOk result (λ o. AddsAll text.now limit wanted.now o) }
    ensures table { IfOk result (λ o. KeepsTable text.now o) }
{
    let mut made = MadeInstances {
        functions: InstanceTable::new(alloc),
        procs: Vec::new(alloc),
    };
    'wanted: for instance in wanted {
        match add_proc(alloc, text, limit, made, copy_of(alloc, instance)?)? {
            Some(more) => made = more,
            None => return Ok(None),
        }
    }
    Ok(Some(made))
}

fn copy_of(alloc: Global, instance: &Instantiated) -> Result<Instantiated, AllocError>
    ensures { IfOk result (λ copy. copy ≡ instance.now) }
{
    Ok(Instantiated {
        name: copy_name(alloc, &instance.name)?,
        parametric_args: copy_values(alloc, instance.parametric_args.as_slice())?,
    })
}

/// Whether the last instance is of this proc with these parametric arguments.
fn is_last_of(procs: &[ProcInstance], top: &Proc, parametric_args: &[DslxValue]) -> bool
    ensures { result ≡ is_last_of (top.now.name).name parametric_args.now procs.now }
{
    match procs.get(procs.len().saturating_sub(1)) {
        Some(last) => is_of(last, top, parametric_args),
        None => false,
    }
}

fn is_of(instance: &ProcInstance, top: &Proc, parametric_args: &[DslxValue]) -> bool
    ensures { result ≡ is_of_proc (top.now.name).name parametric_args.now instance.now }
{
    instance.name == top.name.name
        && equal_values(instance.parametric_args.as_slice(), parametric_args)
}

/// The instances without their names.
fn instances_alone(alloc: Global, procs: Vec<ProcInstance>) -> Result<Seq<Instance>, AllocError>
    ensures { IfOk result (λ instances. instances ≡ instances_alone procs.items) }
{
    let mut instances = Vec::new(alloc);
    'procs: for proc in procs {
        instances.push(alone(proc))?;
    }
    Ok(Seq::from_vec(instances))
}

fn alone(proc: ProcInstance) -> Instance
    ensures { result ≡ proc.instance }
{
    proc.instance
}
