//! The procs that a `config` starts.

ghost use Rattle.std.specs.Prelude.{◌≡◌, ◌==◌, IfOk, Some, length, map};
ghost use Rattle.dslx_meaning.specs.Lists.{and_then, where_true, with_both};
ghost use Rattle.dslx_core.specs.Networks.Configs.{lower_child, lower_children, is_proc_instance as is_instance, proc_instance_in as instance_of_proc, lower_spawn_parametrics};
ghost use Rattle.dslx_core.specs.Networks.Ends.{end_numbers as parametric_args_of_ends};
ghost use Rattle.dslx_scope_names.specs.Values.Seen.{scope_seen};
ghost use Rattle.dslx_config.specs.Configs.Shown.{held};

use crate::configs::end::{NumberedEnd, end_numbers};
use crate::configs::named::find_proc;
use crate::configs::number::spawn_parametric_args;
use base::texts::Name;
use dslx_core::Child;
use dslx_core::networks::ProcInstance;
use dslx_meaning::DslxValue;
use dslx_scope_names::values::ScopeEnv;
use dslx_tree::{ConfigStatement, Proc, Spawn};
use dslx_values::equal_values;
use std::alloc::{AllocError, Global};
use xb_value::Seq;

/// All procs that are spawned, in the order of the text, among the instances that are there; `None` where one of them isn't, and
/// where one is given other ends than its `config` has.
pub(crate) fn children_there<'a>(
    alloc: Global,
    context: ScopeEnv<'a>,
    ends: &[NumberedEnd<'a>],
    procs: &[ProcInstance],
    config_statements: &'a [ConfigStatement],
) -> Result<Option<Seq<Child>>, AllocError>
    ensures { IfOk result (λ children. children ≡ lower_children context.entry.text.now (scope_seen context.entry) (map held ends.now) procs.now config_statements.now) }
{
    let mut children = Vec::new(alloc);
    'config_statements: for config_statement in config_statements {
        match config_statement {
            ConfigStatement::Spawn(spawn) => match child_there(
                alloc, context, ends, procs, spawn,
            )? {
                Some(child) => children.push(child)?,
                None => return Ok(None),
            },
            ConfigStatement::Channel(_) => {}
        }
    }
    Ok(Some(Seq::from_vec(children)))
}

fn child_there<'a>(
    alloc: Global,
    context: ScopeEnv<'a>,
    ends: &[NumberedEnd<'a>],
    procs: &[ProcInstance],
    spawn: &'a Spawn,
) -> Result<Option<Child>, AllocError>
    ensures { IfOk result (λ child. child ≡ lower_child context.entry.text.now (scope_seen context.entry) (map held ends.now) procs.now spawn.now) }
{
    match find_proc(context.text.items.as_slice(), &spawn.target.name) {
        Some(target) => match spawn_parametric_args(
            alloc,
            context,
            target,
            spawn.arguments.as_slice(),
        )? {
            Some(parametric_args) => child_of(
                alloc,
                ends,
                procs,
                spawn,
                parametric_args.as_slice(),
                target,
            ),
            None => Ok(None),
        },
        None => Ok(None),
    }
}

/// The instance with these parametric arguments, at the ends that it is given.
fn child_of(
    alloc: Global,
    ends: &[NumberedEnd],
    procs: &[ProcInstance],
    spawn: &Spawn,
    parametric_args: &[DslxValue],
    target: &Proc,
) -> Result<Option<Child>, AllocError>
    ensures { IfOk result (λ child. child ≡ with_both (instance_of_proc spawn.now.target.name parametric_args.now 0 procs.now) (parametric_args_of_ends (map held ends.now) spawn.now.ends)
        (λ k given. where_true (length given == length target.now.config.ends) (Some (record { instance = k; ends = given })))) }
{
    let instance = instance_number(procs, &spawn.target.name, parametric_args);
    let ends = end_numbers(alloc, ends, spawn.ends.as_slice())?;
    match (instance, ends) {
        (Some(instance), Some(ends)) => if ends.len() == target.config.ends.len() {
            Ok(Some(Child { instance, ends }))
        } else {
            Ok(None)
        },
        _ => Ok(None),
    }
}

/// The number of the first instance of a name and parametric arguments. It looks at the instances up to that one.
pub fn instance_number(
    procs: &[ProcInstance],
    name: &Name,
    parametric_args: &[DslxValue],
) -> Option<u64>
    ensures { result ≡ instance_of_proc name.now parametric_args.now 0 procs.now }
{
    'procs: for i in 0..procs.len() {
        if is_proc_instance(&procs[i], name, parametric_args) {
            return Some(i as u64);
        }
    }
    None
}

fn is_proc_instance(instance: &ProcInstance, name: &Name, parametric_args: &[DslxValue]) -> bool
    ensures { result ≡ is_instance name.now parametric_args.now instance.now }
{
    *name == instance.name && equal_values(parametric_args, instance.parametric_args.as_slice())
}
