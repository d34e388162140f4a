//! What a `config` is lowered to.

ghost use Rattle.std.specs.Prelude.{◌≡◌, IfOk, Some};
ghost use Rattle.dslx_meaning.specs.Items.{meanings_of};
ghost use Rattle.dslx_meaning.specs.Lists.{with_both};
ghost use Rattle.dslx_core.specs.Networks.Configs.{lower_children, lower_config};
ghost use Rattle.dslx_core.specs.Networks.Ends.{end_numbers as parametric_args_of_ends, numbered_ends as all_ends};
ghost use Rattle.dslx_scope_names.specs.Values.Seen.{scope_seen};

use crate::configs::channel::made_there;
use crate::configs::child::children_there;
use crate::configs::end::{end_numbers, numbered_ends};
use dslx_core::MadeChannel;
use dslx_core::networks::{LoweredConfig, ProcInstance};
use dslx_meaning::DslxValue;
use dslx_scope::locals::Locals;
use dslx_scope_names::parametric_args::bindings_of;
use dslx_scope_names::values::ScopeEnv;
use dslx_tree::{Module, Proc};
use std::alloc::{AllocError, Global};
use xb_value::Seq;

/// What the `config` of a proc is lowered to in an instance with these parametric arguments, where these instances of procs are there to be
/// spawned; `None` where a part of it has no lowering.
pub fn config_there<'a>(
    alloc: Global,
    text: &'a Module,
    procs: &[ProcInstance],
    process: &'a Proc,
    parametric_args: &[DslxValue],
) -> Result<Option<LoweredConfig>, AllocError>
    ensures { IfOk result (λ config. config ≡ lower_config text.now (meanings_of text.now) procs.now process.now parametric_args.now) }
{
    let bound = bindings_of(alloc, process.parametrics.as_slice(), parametric_args)?;
    let locals = Locals::new(alloc);
    let context = ScopeEnv {
        text,
        parametric_args: bound.as_slice(),
        locals: &locals,
    };
    match made_there(alloc, context, process.config.config_statements.as_slice())? {
        Some(made) => config_with(alloc, context, procs, process, made),
        None => Ok(None),
    }
}

/// The whole of it, where these channels are made.
fn config_with<'a>(
    alloc: Global,
    context: ScopeEnv<'a>,
    procs: &[ProcInstance],
    process: &'a Proc,
    made: Seq<MadeChannel>,
) -> Result<Option<LoweredConfig>, AllocError>
    ensures { IfOk result (λ config. config ≡ with_both (lower_children context.entry.text.now (scope_seen context.entry) (all_ends process.now) procs.now process.now.config.config_statements)
        (parametric_args_of_ends (all_ends process.now) process.now.config.result) (λ children members. Some (record { made = made; children = children; members = members }))) }
{
    let ends = numbered_ends(alloc, process)?;
    let children = children_there(
        alloc,
        context,
        ends.as_slice(),
        procs,
        process.config.config_statements.as_slice(),
    )?;
    let members = end_numbers(alloc, ends.as_slice(), process.config.result.as_slice())?;
    match (children, members) {
        (Some(children), Some(members)) => Ok(Some(LoweredConfig {
            made,
            children,
            members,
        })),
        _ => Ok(None),
    }
}
