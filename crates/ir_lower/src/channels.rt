//! The channels of a package.

ghost use Rattle.std.specs.Prelude.{◌≡◌, IfOk};
ghost use Rattle.ir_rebuild.specs.Putting.Types.{ir_type_of};
ghost use Rattle.ir_lower.specs.Inner.Made.{types_of_chans, types_of_channels};

use base::texts::Name;
use ir_rebuild::putting::ir_type;
use ir_tree::{Channel, Ends};
use net_core::{Chan, Kind};
use std::alloc::{AllocError, Global};
use xb_value::Seq;

/// A channel for each one of a network.
pub(crate) fn channels_of(alloc: Global, chans: &[Chan]) -> Result<Seq<Channel>, AllocError>
    ensures { IfOk result (λ channels. types_of_channels channels ≡ types_of_chans chans.now) }
{
    let mut channels = Vec::new(alloc);
    let mut id = 0u32;
    'chans: for chan in chans {
        channels.push(channel_of(alloc, id, chan)?)?;
        id = id.saturating_add(1);
    }
    Ok(Seq::from_vec(channels))
}

fn channel_of(alloc: Global, id: u32, chan: &Chan) -> Result<Channel, AllocError>
    ensures { IfOk result (λ channel. channel.ty ≡ ir_type_of chan.now.ty) }
{
    Ok(Channel {
        name: name_copy(alloc, &chan.name)?,
        id,
        ty: ir_type(alloc, &chan.ty)?,
        ends: ends_of(chan.kind, chan.depth),
    })
}

/// Who is at the ends of a channel of this kind and depth.
fn ends_of(kind: Kind, depth: u32) -> Ends {
    match kind {
        Kind::Input => Ends::Input,
        Kind::Output => Ends::Output,
        Kind::Inner => Ends::Inner(u128::from(depth)),
    }
}

pub(crate) fn name_copy(alloc: Global, name: &Name) -> Result<Name, AllocError>
    ensures { IfOk result (λ copy. copy ≡ name.now) }
{
    Ok(Name::from_string(String::from_str(alloc, name.as_str())?))
}
