//! The channels that a `config` makes.

ghost use Rattle.std.specs.Prelude.{◌≡◌, ◌^◌, IfOk, Some, nat_lt};
ghost use Rattle.dslx_meaning.specs.Lists.{where_true};
ghost use Rattle.dslx_core.specs.Networks.Configs.{lower_channel, lower_depth, lower_made};
ghost use Rattle.dslx_scope_names.specs.Values.Seen.{scope_seen};

use crate::channels::plain_type;
use crate::configs::word::word_there;
use dslx_core::MadeChannel;
use dslx_scope_names::values::{ScopeEnv, size_there};
use dslx_tree::{Arg, Channel, ConfigStatement};
use dslx_values::copy_name;
use std::alloc::{AllocError, Global};
use xb_value::Seq;

/// All channels in the order of the text; `None` where one has no type or no depth.
pub(crate) fn made_there<'a>(
    alloc: Global,
    context: ScopeEnv<'a>,
    config_statements: &'a [ConfigStatement],
) -> Result<Option<Seq<MadeChannel>>, AllocError>
    ensures { IfOk result (λ made. made ≡ lower_made (scope_seen context.entry) config_statements.now) }
{
    let mut made = Vec::new(alloc);
    'config_statements: for config_statement in config_statements {
        match config_statement {
            ConfigStatement::Channel(channel) => match channel_there(alloc, context, channel)? {
                Some(channel) => made.push(channel)?,
                None => return Ok(None),
            },
            ConfigStatement::Spawn(_) => {}
        }
    }
    Ok(Some(Seq::from_vec(made)))
}

fn channel_there<'a>(
    alloc: Global,
    context: ScopeEnv<'a>,
    channel: &'a Channel,
) -> Result<Option<MadeChannel>, AllocError>
    ensures { IfOk result (λ made. made ≡ lower_channel (scope_seen context.entry) channel.now) }
{
    let ty = word_there(alloc, context, &channel.word)?;
    let depth = depth_there(alloc, context, &channel.depth)?;
    match (ty, depth) {
        (Some(ty), Some(depth)) => Ok(Some(MadeChannel {
            name: copy_name(alloc, &channel.name.name)?,
            ty: plain_type(alloc, &ty)?,
            depth,
        })),
        _ => Ok(None),
    }
}

/// The depth that is written, below 2^32, or else 1.
fn depth_there<'a>(
    alloc: Global,
    context: ScopeEnv<'a>,
    depth: &'a Option<Arg>,
) -> Result<Option<u32>, AllocError>
    ensures { IfOk result (λ n. n ≡ lower_depth (scope_seen context.entry) depth.now) }
{
    match depth {
        Some(depth) => match size_there(alloc, context, &depth.value)? {
            Some(size) => Ok(as_depth(size)),
            None => Ok(None),
        },
        None => Ok(Some(1)),
    }
}

fn as_depth(size: u128) -> Option<u32>
    ensures { result ≡ where_true (nat_lt size (2 ^ 32)) (Some size) }
{
    if size < 1 << 32 {
        Some(size as u32)
    } else {
        None
    }
}
