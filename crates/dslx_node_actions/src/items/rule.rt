ghost use Rattle.std.specs.Prelude.{◌≡◌, OnOk};
ghost use Rattle.dslx_node_actions.specs.Items.Rules.{reduced_item, reduced_proc};

use crate::items::blocks::{bare_stmt, block, last_value, let_stmt};
use crate::items::declarations::{
    alias, constant, enumeration, field, function, member, parametric, private_item, public_item,
    structure,
};
use crate::items::procs::{
    channel, config, depth, direction, end_named, next, no_depth, proc, spawn,
};
use dslx_actions::SemanticStacks;
use dslx_tree::Direction;
use std::alloc::{AllocError, Global};

/// What rules of statements, blocks and items do where their symbols are complete.
#[derive(Clone, Copy)]
pub enum ItemAction {
    Let,
    Bare,
    LastValue,
    Block,
    Parametric,
    Field,
    Member,
    Function,
    Constant,
    Alias,
    Struct,
    Enum,
    Private,
    Public,
}

/// What rules of procs do where their symbols are complete.
#[derive(Clone, Copy)]
pub enum ProcAction {
    Direction(Direction),
    /// An end, with so many tokens of its own.
    End(usize),
    Depth,
    NoDepth,
    Channel,
    Spawn,
    Config,
    Next,
    Proc,
}

/// Does what is done where a tree of a rule of statements, blocks or items is complete.
pub fn reduce_item(
    parts: &mut SemanticStacks,
    alloc: Global,
    rule: ItemAction,
) -> Result<(), AllocError>
    ensures { OnOk result (parts.new ≡ reduced_item rule parts.old) }
{
    match rule {
        ItemAction::Let => let_stmt(parts, alloc),
        ItemAction::Bare => bare_stmt(parts),
        ItemAction::LastValue => last_value(parts),
        ItemAction::Block => block(parts, alloc),
        ItemAction::Parametric => parametric(parts, alloc),
        ItemAction::Field => field(parts, alloc),
        ItemAction::Member => member(parts, alloc),
        ItemAction::Function => function(parts, alloc),
        ItemAction::Constant => constant(parts, alloc),
        ItemAction::Alias => alias(parts, alloc),
        ItemAction::Struct => structure(parts, alloc),
        ItemAction::Enum => enumeration(parts, alloc),
        ItemAction::Private => private_item(parts, alloc),
        ItemAction::Public => public_item(parts, alloc),
    }
}

/// Does what is done where a tree of a rule of procs is complete.
pub fn reduce_proc(
    parts: &mut SemanticStacks,
    alloc: Global,
    rule: ProcAction,
) -> Result<(), AllocError>
    ensures { OnOk result (parts.new ≡ reduced_proc rule parts.old) }
{
    match rule {
        ProcAction::Direction(way) => direction(parts, way),
        ProcAction::End(count) => end_named(parts, alloc, count),
        ProcAction::Depth => depth(parts),
        ProcAction::NoDepth => no_depth(parts),
        ProcAction::Channel => channel(parts, alloc),
        ProcAction::Spawn => spawn(parts, alloc),
        ProcAction::Config => config(parts),
        ProcAction::Next => next(parts, alloc),
        ProcAction::Proc => proc(parts, alloc),
    }
}
