//! The channels of ends, and those that a `config` makes.

ghost use Rattle.std.specs.Prelude.{ℕ, ◌≡◌, ◌+◌, ◌-◌, ◌<◌, ◌^◌, ◌++◌, length, map, IfOk, OnOk};
ghost use Rattle.dslx_core.specs.Designs.{chan_of_outer, channel_of_end, made_of};
ghost use Rattle.dslx_interp.specs.Network.Linked.{AllBelow};

use base::texts::Name;
use dslx_core::{MadeChannel, Outer};
use net_core::{Chan, Kind};
use std::alloc::{AllocError, Global};
use xb_value::Seq;

/// The channel of an end: one that is given, or behind them one that is made, of which the first has this number.
fn channel_of_end(given: &[u64], number: u64, end: u64) -> u64
    requires { number + (end - length given.now) < 2 ^ 64 }
    ensures { result ≡ channel_of_end given.now number end }
{
    match given.get(end as usize) {
        Some(channel) => *channel,
        None => number + (end - given.len() as u64),
    }
}

/// The channels of some ends, which are given or among so many that are made.
pub(crate) fn channels_of_ends(
    alloc: Global,
    given: &[u64],
    number: u64,
    ends: &[u64],
) -> Result<Seq<u64>, AllocError>
    requires { (made : ℕ) × (number + made < 2 ^ 64) × AllBelow (length given.now + made) ends.now }
    ensures { IfOk result (λ channels. channels ≡ map (channel_of_end given.now number) ends.now) }
{
    let mut channels = Vec::new(alloc);
    'ends: for end in ends {
        channels.push(channel_of_end(given, number, *end))?;
    }
    Ok(Seq::from_vec(channels))
}

pub(crate) fn name_copy(alloc: Global, name: &Name) -> Result<Name, AllocError>
    ensures { IfOk result (λ copy. copy ≡ name.now) }
{
    Ok(Name::from_string(String::from_str(alloc, name.as_str())?))
}

/// Adds the channels that the `config` of a proc at this path makes.
pub(crate) fn push_made(
    alloc: Global,
    path: &Name,
    made: &[MadeChannel],
    chans: &mut Vec<Chan>,
) -> Result<(), AllocError>
    ensures { OnOk result (chans.new.items ≡ chans.old.items ++ map (made_of path.now) made.now) }
{
    'made: for channel in made {
        chans.push(made_of(alloc, path, channel)?)?;
    }
    Ok(())
}

fn made_of(alloc: Global, path: &Name, channel: &MadeChannel) -> Result<Chan, AllocError>
    ensures { IfOk result (λ chan. chan ≡ made_of path.now channel.now) }
{
    let mut name = String::from_str(alloc, path.as_str())?;
    name.push_str("/")?;
    name.push_str(channel.name.as_str())?;
    Ok(Chan {
        name: Name::from_string(name),
        ty: channel.ty.copy(alloc)?,
        kind: Kind::Inner,
        depth: channel.depth,
    })
}

/// The outer channels.
pub(crate) fn outer_chans(alloc: Global, outer: &[Outer]) -> Result<Vec<Chan>, AllocError>
    ensures { IfOk result (λ chans. chans.items ≡ map chan_of_outer outer.now) }
{
    let mut chans = Vec::new(alloc);
    'outer: for channel in outer {
        chans.push(chan_of_outer(alloc, channel)?)?;
    }
    Ok(chans)
}

fn chan_of_outer(alloc: Global, channel: &Outer) -> Result<Chan, AllocError>
    ensures { IfOk result (λ chan. chan ≡ chan_of_outer channel.now) }
{
    Ok(Chan {
        name: name_copy(alloc, &channel.name)?,
        ty: channel.ty.copy(alloc)?,
        kind: channel.kind,
        depth: 1,
    })
}
