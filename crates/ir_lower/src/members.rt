//! The channels of an instance's members, and the types of their words.

ghost use Rattle.std.specs.Prelude.{◌≡◌, map, Some, IfOk};
ghost use Rattle.ir_lower.specs.Deep.{word_type};

use crate::types::Stop;
use dslx_core::{Instance, Step};
use net_core::{Chan, Site};
use std::alloc::{AllocError, Global};
use xb_value::Ty;

/// The channel at each member of an instance, by the sites of its proc; 0 at a member without a site, of which nothing more is asked.
///
/// Nothing is promised: that the sites of what is made of it are those of the network is tested at the end.
pub(crate) fn members_of(
    alloc: Global,
    instance: &Instance,
    sites: &[Site],
) -> Result<Vec<u32>, AllocError> {
    let mut members = vec![in alloc; 0u32; instance.members.len()]?;
    let mut place = 0usize;
    'steps: for step in instance.steps.as_slice() {
        if let Some(member) = member_of(step) {
            if place < sites.len() {
                put_channel(&mut members, member, sites[place].chan);
                place += 1;
            }
        }
    }
    Ok(members)
}

/// The member at which a step has its site, if it has one.
fn member_of(step: &Step) -> Option<u64> {
    match step {
        Step::Bind(_, _) => None,
        Step::Receive(receive) => Some(receive.member),
        Step::Send(send) => Some(send.member),
    }
}

fn put_channel(members: &mut Vec<u32>, member: u64, channel: u32) {
    let place = member as usize;
    if place < members.len() {
        members[place] = channel;
    }
}

/// The types of the words of some channels, which are there.
pub(crate) fn words_of(alloc: Global, chans: &[Chan], members: &[u32]) -> Result<Vec<Ty>, Stop>
    ensures { IfOk result (λ words. map (word_type chans.now) members.now ≡ map Some words.items) }
{
    let mut words = Vec::new(alloc);
    'members: for member in members {
        words.push(word_of(alloc, chans, *member)?)?;
    }
    Ok(words)
}

fn word_of(alloc: Global, chans: &[Chan], channel: u32) -> Result<Ty, Stop>
    ensures { IfOk result (λ word. word_type chans.now channel ≡ Some word) }
{
    let place = channel as usize;
    if place < chans.len() {
        Ok(chans[place].ty.copy(alloc)?)
    } else {
        Err(Stop::Untyped)
    }
}
