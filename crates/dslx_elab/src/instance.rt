//! One instance of a proc.

ghost use Rattle.std.specs.Prelude.{◌≡◌, IfOk, Some};
ghost use Rattle.dslx_core.specs.Machines.Machine.Reached.{IsTable};
ghost use Rattle.dslx_meaning.specs.Items.{meanings_of};
ghost use Rattle.dslx_meaning.specs.Lists.{and_then, where_true};
ghost use Rattle.dslx_meaning.specs.Activation.{opening_state};
ghost use Rattle.dslx_core.specs.Networks.Procs.{instance_of as the_instance, lower_proc};
ghost use Rattle.dslx_param.specs.Needed.{TableMakes};
ghost use Rattle.dslx_elab.specs.Behind.{behind_config, behind_next};

use dslx_config::channels::plain_type;
use dslx_config::configs::{config_there, opening_there};
use dslx_core::Instance;
use dslx_core::lowering::LoweredNext;
use dslx_core::networks::{LoweredConfig, ProcInstance};
use dslx_core_exprs::alike::is_of;
use dslx_core_exprs::types::plain_value;
use dslx_instance::table::InstanceTable;
use dslx_meaning::DslxValue;
use dslx_next::steps::next_there;
use dslx_scope_names::parametric_args::bindings_of;
use dslx_tree::{Module, Proc};
use std::alloc::{AllocError, Global};
use xb_value::Boxed;

/// What a proc with these parametric arguments is lowered to where these instances of procs are there to be spawned, with the instances of
/// functions that it needs, and no others, behind those that are made; `None` only where it has no lowering by any table of at most `limit`
/// of those.
pub fn proc_there<'a>(
    alloc: Global,
    text: &'a Module,
    limit: usize,
    table: InstanceTable,
    procs: &[ProcInstance],
    process: &'a Proc,
    parametric_args: &[DslxValue],
) -> Result<Option<(Instance, InstanceTable)>, AllocError>
    requires is_table { IsTable text.now (meanings_of text.now) table }
    ensures { IfOk result (λ o. TableMakes text.now limit table (λ functions. lower_proc text.now (meanings_of text.now) functions procs.now process.now parametric_args.now) o) }
{
    let bound = bindings_of(alloc, process.parametrics.as_slice(), parametric_args)?;
    match next_there(alloc, text, limit, table, process, bound)? {
        Some((next, table)) => {
            let next = Boxed::new(alloc, next)?;
            match instance_with(alloc, text, procs, process, parametric_args, next)? {
                Some(instance) => Ok(Some((instance, table))),
                None => Ok(None),
            }
        }
        None => Ok(None),
    }
}

/// The whole of it, where its `next` is lowered to this.
fn instance_with<'a>(
    alloc: Global,
    text: &'a Module,
    procs: &[ProcInstance],
    process: &'a Proc,
    parametric_args: &[DslxValue],
    next: Boxed<LoweredNext>,
) -> Result<Option<Instance>, AllocError>
    ensures { IfOk result (λ i. i ≡ behind_next text.now procs.now process.now parametric_args.now next) }
{
    match config_there(alloc, text, procs, process, parametric_args)? {
        Some(config) => instance_opening(alloc, text, process, parametric_args, next, config),
        None => Ok(None),
    }
}

/// The same where its `config` is lowered to this.
fn instance_opening<'a>(
    alloc: Global,
    text: &'a Module,
    process: &'a Proc,
    parametric_args: &[DslxValue],
    next: Boxed<LoweredNext>,
    config: LoweredConfig,
) -> Result<Option<Instance>, AllocError>
    ensures { IfOk result (λ i. i ≡ behind_config text.now process.now parametric_args.now next config) }
{
    match opening_there(alloc, text, process, parametric_args)? {
        Some(opening) => if is_of(&next.get().state, &opening) {
            Ok(Some(instance_of(alloc, process, next, config, &opening)?))
        } else {
            Ok(None)
        },
        None => Ok(None),
    }
}

fn instance_of(
    alloc: Global,
    process: &Proc,
    next: Boxed<LoweredNext>,
    config: LoweredConfig,
    opening: &DslxValue,
) -> Result<Instance, AllocError>
    ensures { IfOk result (λ i. i ≡ the_instance process.now next config opening.now) }
{
    let state = plain_type(alloc, &next.get().state)?;
    let opening = plain_value(alloc, opening)?;
    let LoweredNext { steps, next, .. } = next.into_inner();
    Ok(Instance {
        made: config.made,
        children: config.children,
        members: config.members,
        ends: process.config.ends.len() as u64,
        state,
        opening,
        steps,
        next,
    })
}
