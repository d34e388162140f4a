//! Procs.

use crate::shape::atoms::{add_arg, add_args};
use crate::shape::items::add_parametrics;
use crate::shape::part::Parts;
use dslx_tree::{
    Block, Channel, Config, ConfigStatement, Direction, End, Ident, Next, Proc, Spawn,
};

/// Adds `(proc P < N : u32 > a : u8 in (config ..) (init (block e)) (next s : u8 (block s)))`.
pub fn add_proc<'a>(parts: &mut Parts<'a>, process: &'a Proc) {
    parts.place(process.span);
    parts.open("proc");
    parts.name(&process.name);
    add_parametrics(parts, process.parametrics.as_slice());
    add_ends(parts, process.members.as_slice());
    add_config(parts, &process.config);
    add_init(parts, &process.init);
    add_next(parts, &process.next);
    parts.close();
}

fn add_ends<'a>(parts: &mut Parts<'a>, ends: &'a [End]) {
    for end in ends {
        add_end(parts, end);
    }
}

fn add_end<'a>(parts: &mut Parts<'a>, end: &'a End) {
    parts.name(&end.name);
    parts.word(":");
    parts.ty(&end.word);
    parts.word(match end.direction {
        Direction::In => "in",
        Direction::Out => "out",
    });
}

/// Adds `(config a : u8 in (chan ..) (spawn ..) (result a b))`.
fn add_config<'a>(parts: &mut Parts<'a>, config: &'a Config) {
    parts.place(config.span);
    parts.open("config");
    add_ends(parts, config.ends.as_slice());
    for config_statement in config.config_statements.as_slice() {
        add_config_statement(parts, config_statement);
    }
    parts.open("result");
    add_names(parts, config.result.as_slice());
    parts.close();
    parts.close();
}

fn add_names<'a>(parts: &mut Parts<'a>, names: &'a [Ident]) {
    for name in names {
        parts.name(name);
    }
}

fn add_config_statement<'a>(parts: &mut Parts<'a>, config_statement: &'a ConfigStatement) {
    match config_statement {
        ConfigStatement::Channel(channel) => add_channel(parts, channel),
        ConfigStatement::Spawn(spawn) => add_spawn(parts, spawn),
    }
}

/// Adds `(chan p c : T depth 2 named n)`.
fn add_channel<'a>(parts: &mut Parts<'a>, channel: &'a Channel) {
    parts.place(channel.span);
    parts.open("chan");
    parts.name(&channel.sender);
    parts.name(&channel.receiver);
    parts.word(":");
    parts.ty(&channel.word);
    if let Some(depth) = &channel.depth {
        parts.word("depth");
        add_arg(parts, depth);
    }
    parts.word("named");
    parts.name(&channel.name);
    parts.close();
}

/// Adds `(spawn P < N > a b)`.
fn add_spawn<'a>(parts: &mut Parts<'a>, spawn: &'a Spawn) {
    parts.place(spawn.span);
    parts.open("spawn");
    parts.name(&spawn.target);
    add_args(parts, spawn.arguments.as_slice());
    add_names(parts, spawn.ends.as_slice());
    parts.close();
}

fn add_init<'a>(parts: &mut Parts<'a>, init: &'a Block) {
    parts.open("init");
    parts.block(init);
    parts.close();
}

/// Adds `(next s : T (block s))`.
fn add_next<'a>(parts: &mut Parts<'a>, next: &'a Next) {
    parts.place(next.span);
    parts.open("next");
    parts.name(&next.state);
    parts.word(":");
    parts.ty(&next.ty);
    parts.block(&next.body);
    parts.close();
}
