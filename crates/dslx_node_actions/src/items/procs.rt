//! What the rules of procs make.

ghost use Rattle.std.specs.Prelude.{◌≡◌, OnOk};
ghost use Rattle.dslx_node_actions.specs.Items.Procs.{channel, config, depth, direction, end_named, next, no_depth, proc, spawn};

use dslx_actions::{SemanticStacks, join, no_arg, no_block, no_config, no_ident, no_next, no_type};
use dslx_tree::{Channel, Config, ConfigStatement, Definition, Direction, End, Next, Proc, Spawn};
use std::alloc::{AllocError, Global};
use xb_value::Seq;

/// `in` or `out`
pub fn direction(parts: &mut SemanticStacks, way: Direction) -> Result<(), AllocError>
    ensures { OnOk result (parts.new ≡ direction way parts.old) }
{
    parts.skip(1);
    parts.directions.push(way)
}

/// `name : end`, with so many tokens of its own
pub fn end_named(parts: &mut SemanticStacks, alloc: Global, count: usize) -> Result<(), AllocError>
    ensures { OnOk result (parts.new ≡ end_named count parts.old) }
{
    parts.skip(count);
    let end = End {
        name: parts.idents.pop_or(no_ident(alloc)),
        word: parts.types.pop_or(no_type()),
        direction: parts.directions.pop_or(Direction::In),
    };
    parts.ends.push(end)
}

/// `, arg` behind a type
pub fn depth(parts: &mut SemanticStacks) -> Result<(), AllocError>
    ensures { OnOk result (parts.new ≡ depth parts.old) }
{
    parts.skip(1);
    let arg = parts.args.pop_or(no_arg());
    parts.depths.push(Some(arg))
}

/// A depth is left out.
pub fn no_depth(parts: &mut SemanticStacks) -> Result<(), AllocError>
    ensures { OnOk result (parts.new ≡ no_depth parts.old) }
{
    parts.depths.push(None)
}

/// `let ( name , name ) = channel ;`
pub fn channel(parts: &mut SemanticStacks, alloc: Global) -> Result<(), AllocError>
    ensures { OnOk result (parts.new ≡ channel parts.old) }
{
    let span = parts.take_token_spans(6);
    let name = parts.idents.pop_or(no_ident(alloc));
    let receiver = parts.idents.pop_or(no_ident(alloc));
    let channel = Channel {
        span,
        sender: parts.idents.pop_or(no_ident(alloc)),
        receiver,
        word: parts.types.pop_or(no_type()),
        depth: parts.depths.pop_or(None),
        name,
    };
    parts
        .config_statements
        .push(ConfigStatement::Channel(channel))
}

/// `spawn name args ( names ) ;`
pub fn spawn(parts: &mut SemanticStacks, alloc: Global) -> Result<(), AllocError>
    ensures { OnOk result (parts.new ≡ spawn parts.old) }
{
    let span = parts.take_token_spans(4);
    let names = parts.counts.pop_or(0);
    let args = parts.counts.pop_or(0);
    let ends = Seq::from_vec(parts.idents.take_top(names)?);
    let arguments = Seq::from_vec(parts.args.take_top(args)?);
    let spawn = Spawn {
        span,
        target: parts.idents.pop_or(no_ident(alloc)),
        arguments,
        ends,
    };
    parts.config_statements.push(ConfigStatement::Spawn(spawn))
}

/// `config ( ends ) { config_statements ( names ) }`
pub fn config(parts: &mut SemanticStacks) -> Result<(), AllocError>
    ensures { OnOk result (parts.new ≡ config parts.old) }
{
    let span = parts.take_token_spans(5);
    let names = parts.counts.pop_or(0);
    let config_statements = parts.counts.pop_or(0);
    let ends = parts.counts.pop_or(0);
    let result = Seq::from_vec(parts.idents.take_top(names)?);
    let ends = Seq::from_vec(parts.ends.take_top(ends)?);
    let config_statements = Seq::from_vec(parts.config_statements.take_top(config_statements)?);
    parts.configs.push(Config {
        span,
        ends,
        config_statements,
        result,
    })
}

/// `next ( name : type ) block`
pub fn next(parts: &mut SemanticStacks, alloc: Global) -> Result<(), AllocError>
    ensures { OnOk result (parts.new ≡ next parts.old) }
{
    let token_spans = parts.take_token_spans(4);
    let body = parts.blocks.pop_or(no_block(alloc));
    let next = Next {
        span: join(token_spans, body.span),
        state: parts.idents.pop_or(no_ident(alloc)),
        ty: parts.types.pop_or(no_type()),
        body,
    };
    parts.nexts.push(next)
}

/// `proc name parametrics { members config init next }`, the last three in any order
pub fn proc(parts: &mut SemanticStacks, alloc: Global) -> Result<(), AllocError>
    ensures { OnOk result (parts.new ≡ proc parts.old) }
{
    let span = parts.take_token_spans(3);
    let members = parts.counts.pop_or(0);
    let parametrics = parts.counts.pop_or(0);
    let members = Seq::from_vec(parts.ends.take_top(members)?);
    let parametrics = Seq::from_vec(parts.parametrics.take_top(parametrics)?);
    let proc = Proc {
        span,
        name: parts.idents.pop_or(no_ident(alloc)),
        parametrics,
        members,
        config: parts.configs.pop_or(no_config(alloc)),
        init: parts.blocks.pop_or(no_block(alloc)),
        next: parts.nexts.pop_or(no_next(alloc)),
    };
    parts.definitions.push(Definition::Proc(proc))
}
