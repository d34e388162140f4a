//! Names, depths and ends of channels that a `config` makes.

ghost use Rattle.std.specs.Prelude.{◌≡◌, true, OnOk, if◌then◌else◌};
ghost use Rattle.std.specs.Str.{bytes_eq};
ghost use Rattle.dslx_meaning.specs.Rules.ProcRules as the;
ghost use Rattle.dslx_meaning.specs.Rules.TypeEnvs.{found_number as the_found};
ghost use Rattle.dslx_check_rules.specs.Seen.{seen};
ghost use Rattle.dslx_check_declarations.specs.Config.{MakesChannel, NamesChannel};

use crate::config::Made;
use crate::ends::named_end;
use base::texts::Name;
use dslx_check_facts::{Facts, TypeEnv, local_name};
use dslx_check_rules::nodes::either;
use dslx_check_rules::{Faults, TypeId, rule};
use dslx_tree::{Channel, Direction};
use std::alloc::AllocError;
use xb_span::What;

/// The limit on a depth, which is named where it ends.
pub fn depth_limit(end: u32, count: Option<u128>) -> Faults
    ensures { result ≡ seen (the.depth_limit end count) }
{
    match count {
        None => Faults::none(),
        Some(count) => Faults::passes(What::Depth, 4096, end, found_number(count)),
    }
}

/// A number as it is named; one past 2^64 - 1 is that.
fn found_number(number: u128) -> u64
    ensures { result ≡ the_found number }
{
    number.min(u64::MAX as u128) as u64
}

/// What the names of a channel's ends and its string break, behind what is made.
pub fn channel_names(f: &Facts, made: &Made, channel: &Channel) -> Faults
    ensures { NamesChannel f.now made.now channel.now result }
{
    let (sender, receiver) = (&channel.sender, &channel.receiver);
    let first = local_name(f, made.has_end(&sender.name), sender);
    let is_before = is_either(made.has_end(&receiver.name), &receiver.name, &sender.name);
    let second = local_name(f, is_before, receiver);
    let has_string = made.has_string(&channel.name.name);
    let string = Faults::breaks_if(has_string, rule::NAME_STANDS_ONCE, channel.name.span);
    first.and(second).and(string)
}

/// Whether it is so, or the two names are one.
fn is_either(is_before: bool, name: &Name, other: &Name) -> bool
    ensures { result ≡ (if bytes_eq name.now other.now then true else is_before) }
{
    either(*name == *other, is_before)
}

/// Both ends of a channel for such words are declared from here on. Of two of one name the sender is meant.
pub fn make_channel<'a>(
    s: &mut TypeEnv<'a>,
    made: &mut Made<'a>,
    channel: &'a Channel,
    word: Option<TypeId>,
) -> Result<(), AllocError>
    ensures { OnOk result (MakesChannel s.old s.new made.old made.new channel.now word) }
{
    let (sender, receiver) = (&channel.sender.name, &channel.receiver.name);
    s.ends.bind(sender, ())?;
    s.ends.bind(receiver, ())?;
    made.add(named_end(receiver, Direction::In, word))?;
    made.add(named_end(sender, Direction::Out, word))?;
    made.add_string(&channel.name.name)
}
