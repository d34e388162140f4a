//! Parametric arguments: those that a spawn gives, and those of the top.

ghost use Rattle.std.specs.Prelude.{◌≡◌, IfOk, map};
ghost use Rattle.std.specs.Option.{option_map};
ghost use Rattle.dslx_tree.specs.declared.expr.Arg.{out-Arg};
ghost use Rattle.dslx_meaning.specs.Items.{meanings_of};
ghost use Rattle.dslx_meaning.specs.Lists.{all_some};
ghost use Rattle.dslx_meaning.specs.Network.{top_parametric_args as parametric_args_of_top};
ghost use Rattle.dslx_core.specs.Lowering.CoreScopes.{constant_at};
ghost use Rattle.dslx_core.specs.Networks.Configs.{lower_spawn_parametrics};
ghost use Rattle.dslx_scope_names.specs.Values.Seen.{scope_seen};

use dslx_meaning::DslxValue;
use dslx_scope_names::parametric_args::all_parametric_args;
use dslx_scope_names::values::{ScopeEnv, constant_there};
use dslx_tree::{Arg, Module, Proc};
use std::alloc::{AllocError, Global};
use xb_value::Seq;

/// The parametric arguments of a proc that is spawned with these, and those of its parametrics that aren't given.
pub(crate) fn spawn_parametric_args<'a>(
    alloc: Global,
    context: ScopeEnv<'a>,
    target: &'a Proc,
    arguments: &'a [Arg],
) -> Result<Option<Seq<DslxValue>>, AllocError>
    ensures { IfOk result (λ parametric_args. parametric_args ≡ lower_spawn_parametrics (scope_seen context.entry) target.now arguments.now) }
{
    match given_parametric_args(alloc, context, arguments)? {
        Some(given) => all_parametric_args(
            alloc,
            context.text,
            target.parametrics.as_slice(),
            given,
        ),
        None => Ok(None),
    }
}

/// The values that are written.
fn given_parametric_args<'a>(
    alloc: Global,
    context: ScopeEnv<'a>,
    arguments: &'a [Arg],
) -> Result<Option<Vec<DslxValue>>, AllocError>
    ensures { IfOk result (λ given. option_map (λ vs. vs.items) given ≡ all_some (map (λ a. constant_at (scope_seen context.entry) (out-Arg a).value) arguments.now)) }
{
    let mut given = Vec::new(alloc);
    'arguments: for argument in arguments {
        match constant_there(alloc, context, &argument.value)? {
            Some(number) => given.push(number)?,
            None => return Ok(None),
        }
    }
    Ok(Some(given))
}

/// The parametric arguments of the top, the defaults of its parametrics; none where one has no value.
pub fn top_parametric_args<'a>(
    alloc: Global,
    text: &'a Module,
    top: &'a Proc,
) -> Result<Seq<DslxValue>, AllocError>
    ensures { IfOk result (λ parametric_args. parametric_args ≡ parametric_args_of_top (meanings_of text.now) top.now) }
{
    match all_parametric_args(alloc, text, top.parametrics.as_slice(), Vec::new(alloc))? {
        Some(parametric_args) => Ok(parametric_args),
        None => Ok(Seq::new(alloc)),
    }
}
