//! What a `config` breaks.

ghost use Rattle.std.specs.Prelude.{IfOk};
ghost use Rattle.dslx_tree.specs.declared.process.ConfigStatement.TheVariants as config_statement;
ghost use Rattle.dslx_check_facts.specs.Walks.{shown};
ghost use Rattle.dslx_check_judge.specs.Instances.Inner.Config.{JudgesConfig, StepsStatement, StepsStatements};

use crate::instances::channels::{channel_type, depth_faults, ends_seen};
use crate::instances::spawns::spawn_faults;
use dslx_check_declarations::{
    Made, NamedEnd, add_all, channel_names, make_channel, result_faults,
};
use dslx_check_facts::{Facts, TypeEnv, Walk};
use dslx_check_rules::Faults;
use dslx_tree::{Channel, ConfigStatement, Proc};
use std::alloc::AllocError;

/// The faults of a `config`. Its ends are in scope in it alone.
pub(crate) fn config_faults<'a>(
    f: &Facts<'a>,
    w: &mut Walk,
    s: &mut TypeEnv<'a>,
    process: &'a Proc,
    members: &[NamedEnd<'a>],
) -> Result<Faults, AllocError>
    ensures { IfOk result (λ faults. JudgesConfig f.now s.old s.new (shown w.old) (shown w.new) faults process.now members.now) }
{
    let given = ends_seen(f, w, s, process.config.ends.as_slice())?;
    let mut made = Made::new(f.alloc);
    add_all(s, &mut made, given.ends.as_slice())?;
    let statements = process.config.config_statements.as_slice();
    let inside = statements_faults(f, w, s, &mut made, statements)?;
    let result = result_faults(&w.types, s, &mut made, process, members)?;
    s.ends.keep(0);
    Ok(given.faults.and(inside).and(result))
}

fn statements_faults<'a>(
    f: &Facts<'a>,
    w: &mut Walk,
    s: &mut TypeEnv<'a>,
    made: &mut Made<'a>,
    statements: &'a [ConfigStatement],
) -> Result<Faults, AllocError>
    ensures { IfOk result (λ faults. StepsStatements f.now s.old s.new (shown w.old) (shown w.new) made.old made.new faults statements.now) }
{
    let mut faults = Faults::none();
    'statements: for statement in statements {
        let own = statement_faults(f, w, s, made, statement)?;
        faults = faults.and(own);
    }
    Ok(faults)
}

fn statement_faults<'a>(
    f: &Facts<'a>,
    w: &mut Walk,
    s: &mut TypeEnv<'a>,
    made: &mut Made<'a>,
    statement: &'a ConfigStatement,
) -> Result<Faults, AllocError>
    ensures { IfOk result (λ faults. StepsStatement f.now s.old s.new (shown w.old) (shown w.new) made.old made.new faults statement.now) }
{
    match statement {
        ConfigStatement::Channel(channel) => channel_faults(f, w, s, made, channel),
        ConfigStatement::Spawn(spawn) => spawn_faults(f, w, s, made, spawn),
    }
}

/// A channel that is made: what its names, its words and its depth break. Its ends are in scope behind it.
fn channel_faults<'a>(
    f: &Facts<'a>,
    w: &mut Walk,
    s: &mut TypeEnv<'a>,
    made: &mut Made<'a>,
    channel: &'a Channel,
) -> Result<Faults, AllocError>
    ensures { IfOk result (λ faults. StepsStatement f.now s.old s.new (shown w.old) (shown w.new) made.old made.new faults (config_statement.Channel channel.now)) }
{
    let names = channel_names(f, made, channel);
    let word = channel_type(f, w, s, &channel.word)?;
    let depth = depth_faults(f, w, s, &channel.depth)?;
    make_channel(s, made, channel, word.ty)?;
    Ok(names.and(word.faults).and(depth))
}
