//! What the network knows of a proc.

ghost use Rattle.std.specs.Prelude.{◌≡◌, ◌<◌, ◌^◌, ◌++◌, get_or, map, IfOk};
ghost use Rattle.dslx_core.specs.Designs.{core_head, site_of_step, sites_of_steps};
ghost use Rattle.dslx_interp.specs.Network.Linked.{AllBelow};

use crate::network::channels::name_copy;
use base::texts::Name;
use dslx_core::{Instance, Step};
use net_core::{ProcHead, Site};
use std::alloc::{AllocError, Global};
use xb_value::Seq;

/// The proc of an instance at this path, whose members are these channels.
pub(crate) fn head_of(
    alloc: Global,
    path: &Name,
    instance: &Instance,
    channels: &[u64],
) -> Result<ProcHead, AllocError>
    requires { AllBelow (2 ^ 32) channels.now }
    ensures { IfOk result (λ head. head ≡ core_head (record { path = path.now; instance = instance.now; channels = channels.now })) }
{
    let sites = sites_of_steps(alloc, channels, instance.steps.as_slice())?;
    Ok(ProcHead {
        path: name_copy(alloc, path)?,
        state: instance.state.copy(alloc)?,
        init: instance.opening.copy(alloc)?,
        sites: Seq::from_vec(sites),
    })
}

fn sites_of_steps(alloc: Global, channels: &[u64], steps: &[Step]) -> Result<Vec<Site>, AllocError>
    requires { AllBelow (2 ^ 32) channels.now }
    ensures { IfOk result (λ sites. sites.items ≡ sites_of_steps channels.now steps.now) }
{
    let mut sites = Vec::new(alloc);
    'steps: for step in steps {
        match step {
            Step::Bind(_, _) => {}
            Step::Receive(receive) => sites.push(Site {
                chan: channel_at(channels, receive.member),
                sends: false,
            })?,
            Step::Send(send) => sites.push(Site {
                chan: channel_at(channels, send.member),
                sends: true,
            })?,
        }
    }
    Ok(sites)
}

/// The channel of a member. One that isn't there counts as channel 0.
fn channel_at(channels: &[u64], member: u64) -> u32
    requires { AllBelow (2 ^ 32) channels.now }
    ensures { result ≡ get_or channels.now member 0 }
{
    match channels.get(member as usize) {
        Some(channel) => *channel as u32,
        None => 0,
    }
}
