//! The network of a package.

ghost use Rattle.std.specs.Prelude.{◌≡◌, IfOk, map};
ghost use Rattle.ir_tree.specs.Activations.{sites_of};
ghost use Rattle.ir_tree.specs.Networks.{kind_of, depth_of, chan_of, head_of, network_of};

use crate::node::{Node, Role};
use crate::package::{Channel, Ends, Package, Proc};
use net_core::{Chan, Kind, Name, Net, ProcHead, Site};
use std::alloc::{AllocError, Global};
use xb_value::Seq;

/// The network that a package is. It takes time and memory as the package is large.
pub fn net_of(alloc: Global, ir: &Package) -> Result<Net, AllocError>
    ensures { IfOk result (λ net. net ≡ network_of ir.now) }
{
    Ok(Net {
        name: copied(alloc, &ir.name)?,
        procs: Seq::from_vec(heads_of(alloc, ir.procs.as_slice())?),
        chans: Seq::from_vec(chans_of(alloc, ir.channels.as_slice())?),
    })
}

fn copied(alloc: Global, name: &Name) -> Result<Name, AllocError>
    ensures { IfOk result (λ copy. copy ≡ name.now) }
{
    Ok(Name::from_string(String::from_str(alloc, name.as_str())?))
}

fn heads_of(alloc: Global, procs: &[Proc]) -> Result<Vec<ProcHead>, AllocError>
    ensures { IfOk result (λ heads. heads.items ≡ map head_of procs.now) }
{
    let mut heads = Vec::new(alloc);
    'procs: for proc in procs {
        heads.push(head_of(alloc, proc)?)?;
    }
    Ok(heads)
}

fn head_of(alloc: Global, proc: &Proc) -> Result<ProcHead, AllocError>
    ensures { IfOk result (λ head. head ≡ head_of proc.now) }
{
    let path = copied(alloc, &proc.name)?;
    let state = proc.state.to_ty(alloc)?;
    let init = proc.init.to_value(alloc, &state)?;
    let sites = Seq::from_vec(sites_of(alloc, proc.nodes.as_slice())?);
    Ok(ProcHead {
        path,
        state,
        init,
        sites,
    })
}

/// The receives and sends among the nodes, in their order.
fn sites_of(alloc: Global, nodes: &[Node]) -> Result<Vec<Site>, AllocError>
    ensures { IfOk result (λ sites. sites.items ≡ sites_of nodes.now) }
{
    let mut sites = Vec::new(alloc);
    'nodes: for node in nodes {
        match node.role() {
            Role::Pure => {}
            Role::Receive(_, chan) => sites.push(Site { chan, sends: false })?,
            Role::Send(_, chan) => sites.push(Site { chan, sends: true })?,
        }
    }
    Ok(sites)
}

fn chans_of(alloc: Global, channels: &[Channel]) -> Result<Vec<Chan>, AllocError>
    ensures { IfOk result (λ chans. chans.items ≡ map chan_of channels.now) }
{
    let mut chans = Vec::new(alloc);
    'channels: for channel in channels {
        chans.push(chan_of(alloc, channel)?)?;
    }
    Ok(chans)
}

fn chan_of(alloc: Global, channel: &Channel) -> Result<Chan, AllocError>
    ensures { IfOk result (λ chan. chan ≡ chan_of channel.now) }
{
    Ok(Chan {
        name: copied(alloc, &channel.name)?,
        ty: channel.ty.to_ty(alloc)?,
        kind: channel.ends.kind(),
        depth: channel.ends.depth(),
    })
}

impl Ends {
    ghost use Rattle.std.specs.Prelude.{◌≡◌};
    ghost use Rattle.ir_tree.specs.Networks.{kind_of, depth_of};

    fn kind(self) -> Kind
        ensures { result ≡ kind_of self }
    {
        match self {
            Ends::Input => Kind::Input,
            Ends::Output => Kind::Output,
            Ends::Inner(_) => Kind::Inner,
        }
    }

    /// How many words fit in the channel. Those of outer channels don't count.
    fn depth(self) -> u32
        ensures { result ≡ depth_of self }
    {
        match self {
            Ends::Input | Ends::Output => 1,
            Ends::Inner(depth) => depth.min(u128::from(u32::MAX)) as u32,
        }
    }
}
