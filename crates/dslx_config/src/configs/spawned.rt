//! The instances that a `config` spawns.

ghost use Rattle.std.specs.Prelude.{◌≡◌, IfOk};
ghost use Rattle.dslx_meaning.specs.Items.{meanings_of};
ghost use Rattle.dslx_core.specs.Networks.Configs.{config_scope};
ghost use Rattle.dslx_scope_names.specs.Values.Seen.{scope_seen};
ghost use Rattle.dslx_config.specs.Configs.Spawned.{spawned_instance, spawned_instances};

use crate::configs::named::find_proc;
use crate::configs::number::spawn_parametric_args;
use dslx_core::lowering::Instantiated;
use dslx_meaning::DslxValue;
use dslx_scope::locals::Locals;
use dslx_scope_names::parametric_args::bindings_of;
use dslx_scope_names::values::ScopeEnv;
use dslx_tree::{ConfigStatement, Module, Proc, Spawn};
use dslx_values::copy_name;
use std::alloc::{AllocError, Global};
use xb_value::Seq;

/// The instances that a proc spawns in an instance with these parametric arguments, in the order of the text; `None` where a spawn is of no
/// proc, or a parametric argument has no value.
pub fn spawned_there<'a>(
    alloc: Global,
    text: &'a Module,
    process: &'a Proc,
    parametric_args: &[DslxValue],
) -> Result<Option<Seq<Instantiated>>, AllocError>
    ensures { IfOk result (λ spawned. spawned ≡ spawned_instances text.now (config_scope (meanings_of text.now) process.now parametric_args.now) process.now.config.config_statements) }
{
    let bound = bindings_of(alloc, process.parametrics.as_slice(), parametric_args)?;
    let locals = Locals::new(alloc);
    let context = ScopeEnv {
        text,
        parametric_args: bound.as_slice(),
        locals: &locals,
    };
    all_spawned(alloc, context, process.config.config_statements.as_slice())
}

fn all_spawned<'a>(
    alloc: Global,
    context: ScopeEnv<'a>,
    config_statements: &'a [ConfigStatement],
) -> Result<Option<Seq<Instantiated>>, AllocError>
    ensures { IfOk result (λ spawned. spawned ≡ spawned_instances context.entry.text.now (scope_seen context.entry) config_statements.now) }
{
    let mut spawned = Vec::new(alloc);
    'config_statements: for config_statement in config_statements {
        match config_statement {
            ConfigStatement::Spawn(spawn) => match instance_there(alloc, context, spawn)? {
                Some(instance) => spawned.push(instance)?,
                None => return Ok(None),
            },
            ConfigStatement::Channel(_) => {}
        }
    }
    Ok(Some(Seq::from_vec(spawned)))
}

fn instance_there<'a>(
    alloc: Global,
    context: ScopeEnv<'a>,
    spawn: &'a Spawn,
) -> Result<Option<Instantiated>, AllocError>
    ensures { IfOk result (λ instance. instance ≡ spawned_instance context.entry.text.now (scope_seen context.entry) spawn.now) }
{
    match find_proc(context.text.items.as_slice(), &spawn.target.name) {
        Some(target) => match spawn_parametric_args(
            alloc,
            context,
            target,
            spawn.arguments.as_slice(),
        )? {
            Some(parametric_args) => Ok(Some(Instantiated {
                name: copy_name(alloc, &spawn.target.name)?,
                parametric_args,
            })),
            None => Ok(None),
        },
        None => Ok(None),
    }
}
