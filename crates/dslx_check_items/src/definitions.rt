//! What the text of each kind of item mentions.

ghost use Rattle.std.specs.Prelude.{◌≡◌, [], map, IfOk, OnOk};
ghost use Rattle.std.specs.Option.{option_map};
ghost use Rattle.dslx_meaning.specs.Rules.Mentions.{definition_mentions, mentioned, mentioned_in_arg, mentioned_in_type};
ghost use Rattle.dslx_check_items.specs.Shown.{mention_shown};
ghost use Rattle.dslx_check_items.specs.Inner.Walks.{mentioning_all, mentioning_if};
ghost use Rattle.dslx_check_items.specs.Inner.Definitions.{behind_parametrics, channel_walk, config_walk, config_statement_walk, constant_walk, definition_walk, enum_walk, function_walk, in_end, in_field_type, in_member, interface_walk, parametric_walk, parametrics_walk, proc_walk, spawn_walk};
ghost use Rattle.dslx_check_items.specs.Inner.Plain.{walk_shown};

use crate::binds::{bind_arguments, bind_parametrics};
use crate::mention::{Mention, Use};
use crate::mentions::{mention_arg, mention_args, mention_block, mention_expr, mention_type};
use crate::walk::Walk;
use dslx_tree::{
    Arg, Channel, ConfigStatement, Constant, Definition, End, Enum, Expr, Field, Function, Member,
    Parametric, Proc, Spawn, TypeExpr,
};
use std::alloc::{AllocError, Global};

/// What the text of an item mentions, in order, as often as it does. It takes time as the text is long, and a name is looked up among
/// those that are bound around it.
pub fn mentions_of<'a>(
    alloc: Global,
    definition: &'a Definition,
) -> Result<Vec<Mention<'a>>, AllocError>
    ensures { IfOk result (λ mentions. map mention_shown mentions.items ≡ definition_mentions definition.now) }
{
    let mut w = Walk::new(alloc);
    mention_definition(&mut w, definition)?;
    Ok(w.found)
}

/// What an expression by itself mentions, in order, as often as it does.
pub fn expr_mentions<'a>(alloc: Global, expr: &'a Expr) -> Result<Vec<Mention<'a>>, AllocError>
    ensures { IfOk result (λ mentions. map mention_shown mentions.items ≡ mentioned expr.now []) }
{
    let mut w = Walk::new(alloc);
    mention_expr(&mut w, expr)?;
    Ok(w.found)
}

fn mention_definition<'a>(w: &mut Walk<'a>, definition: &'a Definition) -> Result<(), AllocError>
    ensures { OnOk result (walk_shown w.new ≡ definition_walk definition.now (walk_shown w.old)) }
{
    match definition {
        Definition::Function(function) => mention_function(w, function),
        Definition::Proc(process) => mention_proc(w, process),
        Definition::Constant(constant) => mention_constant(w, constant),
        Definition::Alias(alias) => mention_type(w, &alias.ty),
        Definition::Struct(structure) => mention_fields(w, structure.fields.as_slice()),
        Definition::Enum(choice) => mention_enum(w, choice),
    }
}

fn mention_function<'a>(w: &mut Walk<'a>, function: &'a Function) -> Result<(), AllocError>
    ensures { OnOk result (walk_shown w.new ≡ function_walk function.now (walk_shown w.old)) }
{
    mention_parametrics(w, function.parametrics.as_slice())?;
    mention_fields(w, function.arguments.as_slice())?;
    mention_written(w, &function.result)?;
    bind_arguments(w, function.arguments.as_slice())?;
    mention_block(w, &function.body)
}

fn mention_constant<'a>(w: &mut Walk<'a>, constant: &'a Constant) -> Result<(), AllocError>
    ensures { OnOk result (walk_shown w.new ≡ constant_walk constant.now (walk_shown w.old)) }
{
    mention_written(w, &constant.ty)?;
    mention_expr(w, &constant.value)
}

fn mention_enum<'a>(w: &mut Walk<'a>, choice: &'a Enum) -> Result<(), AllocError>
    ensures { OnOk result (walk_shown w.new ≡ enum_walk choice.now (walk_shown w.old)) }
{
    mention_type(w, &choice.base)?;
    mention_members(w, choice.members.as_slice())
}

fn mention_members<'a>(w: &mut Walk<'a>, members: &'a [Member]) -> Result<(), AllocError>
    ensures { OnOk result (walk_shown w.new ≡ mentioning_all (map in_member members.now) (walk_shown w.old)) }
{
    'members: for member in members {
        mention_expr(w, &member.value)?;
    }
    Ok(())
}

fn mention_fields<'a>(w: &mut Walk<'a>, fields: &'a [Field]) -> Result<(), AllocError>
    ensures { OnOk result (walk_shown w.new ≡ mentioning_all (map in_field_type fields.now) (walk_shown w.old)) }
{
    'fields: for field in fields {
        mention_type(w, &field.ty)?;
    }
    Ok(())
}

/// A type that may be written.
fn mention_written<'a>(w: &mut Walk<'a>, ty: &'a Option<TypeExpr>) -> Result<(), AllocError>
    ensures { OnOk result (walk_shown w.new ≡ mentioning_if (option_map mentioned_in_type ty.now) (walk_shown w.old)) }
{
    match ty {
        Some(ty) => mention_type(w, ty),
        None => Ok(()),
    }
}

/// What the types and defaults of parameters mention, each of which sees the parameters before it; all are bound then.
fn mention_parametrics<'a>(
    w: &mut Walk<'a>,
    parametrics: &'a [Parametric],
) -> Result<(), AllocError>
    ensures { OnOk result (walk_shown w.new ≡ parametrics_walk parametrics.now (walk_shown w.old)) }
{
    let mark = w.len();
    mention_each(w, parametrics)?;
    w.keep_first(mark);
    bind_parametrics(w, parametrics)
}

fn mention_each<'a>(w: &mut Walk<'a>, parametrics: &'a [Parametric]) -> Result<(), AllocError>
    ensures { OnOk result (walk_shown w.new ≡ behind_parametrics parametrics.now (walk_shown w.old)) }
{
    'parametrics: for parametric in parametrics {
        mention_parametric(w, parametric)?;
    }
    Ok(())
}

fn mention_parametric<'a>(w: &mut Walk<'a>, parametric: &'a Parametric) -> Result<(), AllocError>
    ensures { OnOk result (walk_shown w.new ≡ parametric_walk parametric.now (walk_shown w.old)) }
{
    mention_type(w, &parametric.ty)?;
    mention_default(w, &parametric.default)?;
    w.bind(&parametric.name.name)
}

fn mention_default<'a>(w: &mut Walk<'a>, default: &'a Option<Expr>) -> Result<(), AllocError>
    ensures { OnOk result (walk_shown w.new ≡ mentioning_if (option_map mentioned default.now) (walk_shown w.old)) }
{
    match default {
        Some(default) => mention_expr(w, default),
        None => Ok(()),
    }
}

fn mention_proc<'a>(w: &mut Walk<'a>, process: &'a Proc) -> Result<(), AllocError>
    ensures { OnOk result (walk_shown w.new ≡ proc_walk process.now (walk_shown w.old)) }
{
    mention_interface(w, process)?;
    mention_config(w, process.config.config_statements.as_slice())?;
    mention_block(w, &process.init)?;
    mention_type(w, &process.next.ty)?;
    w.bind(&process.next.state.name)?;
    mention_block(w, &process.next.body)
}

/// The parameters of a proc, its members, and what its `config` takes.
fn mention_interface<'a>(w: &mut Walk<'a>, process: &'a Proc) -> Result<(), AllocError>
    ensures { OnOk result (walk_shown w.new ≡ interface_walk process.now (walk_shown w.old)) }
{
    mention_parametrics(w, process.parametrics.as_slice())?;
    mention_ends(w, process.members.as_slice())?;
    mention_ends(w, process.config.ends.as_slice())
}

fn mention_ends<'a>(w: &mut Walk<'a>, ends: &'a [End]) -> Result<(), AllocError>
    ensures { OnOk result (walk_shown w.new ≡ mentioning_all (map in_end ends.now) (walk_shown w.old)) }
{
    'ends: for end in ends {
        mention_type(w, &end.word)?;
    }
    Ok(())
}

fn mention_config<'a>(w: &mut Walk<'a>, statements: &'a [ConfigStatement]) -> Result<(), AllocError>
    ensures { OnOk result (walk_shown w.new ≡ config_walk statements.now (walk_shown w.old)) }
{
    'statements: for statement in statements {
        mention_config_statement(w, statement)?;
    }
    Ok(())
}

fn mention_config_statement<'a>(
    w: &mut Walk<'a>,
    statement: &'a ConfigStatement,
) -> Result<(), AllocError>
    ensures { OnOk result (walk_shown w.new ≡ config_statement_walk statement.now (walk_shown w.old)) }
{
    match statement {
        ConfigStatement::Channel(channel) => mention_channel(w, channel),
        ConfigStatement::Spawn(spawn) => mention_spawn(w, spawn),
    }
}

fn mention_channel<'a>(w: &mut Walk<'a>, channel: &'a Channel) -> Result<(), AllocError>
    ensures { OnOk result (walk_shown w.new ≡ channel_walk channel.now (walk_shown w.old)) }
{
    mention_type(w, &channel.word)?;
    mention_depth(w, &channel.depth)
}

fn mention_depth<'a>(w: &mut Walk<'a>, depth: &'a Option<Arg>) -> Result<(), AllocError>
    ensures { OnOk result (walk_shown w.new ≡ mentioning_if (option_map mentioned_in_arg depth.now) (walk_shown w.old)) }
{
    match depth {
        Some(depth) => mention_arg(w, depth),
        None => Ok(()),
    }
}

fn mention_spawn<'a>(w: &mut Walk<'a>, spawn: &'a Spawn) -> Result<(), AllocError>
    ensures { OnOk result (walk_shown w.new ≡ spawn_walk spawn.now (walk_shown w.old)) }
{
    w.mention(Use::Proc, &spawn.target.name)?;
    mention_args(w, spawn.arguments.as_slice())
}
