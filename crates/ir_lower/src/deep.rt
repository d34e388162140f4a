//! Words that are too deep to be received.

ghost use Rattle.std.specs.Prelude.{◌≡◌, nat_lt, IfOk};
ghost use Rattle.ir_tree.specs.NodeTypes.Types.{levels_of};
ghost use Rattle.ir_rebuild.specs.Putting.Types.{ir_type_of};
ghost use Rattle.ir_lower.specs.Deep.{deep_limit, is_deep_head, is_deep_site, receives_deep};

use ir_rebuild::putting::ir_type;
use ir_tree::node_types::levels_of;
use net_core::{Chan, Net, ProcHead, Site};
use std::alloc::{AllocError, Global};
use xb_span::{Limit, What};
use xb_value::Ty;

/// Whether some proc receives words in which, with their token beside them, more than 64 tuples and arrays would stand one in another.
pub(crate) fn receives_deep(alloc: Global, net: &Net) -> Result<bool, AllocError>
    ensures { IfOk result (λ b. b ≡ receives_deep net.now) }
{
    let chans = net.chans.as_slice();
    'procs: for head in net.procs.as_slice() {
        if is_deep_head(alloc, chans, head)? {
            return Ok(true);
        }
    }
    Ok(false)
}

fn is_deep_head(alloc: Global, chans: &[Chan], head: &ProcHead) -> Result<bool, AllocError>
    ensures { IfOk result (λ b. b ≡ is_deep_head chans.now head.now) }
{
    'sites: for site in head.sites.as_slice() {
        if is_deep_site(alloc, chans, *site)? {
            return Ok(true);
        }
    }
    Ok(false)
}

fn is_deep_site(alloc: Global, chans: &[Chan], site: Site) -> Result<bool, AllocError>
    ensures { IfOk result (λ b. b ≡ is_deep_site chans.now site) }
{
    let place = site.chan as usize;
    if site.sends {
        Ok(false)
    } else if place < chans.len() {
        is_deep(alloc, &chans[place].ty)
    } else {
        Ok(false)
    }
}

fn is_deep(alloc: Global, ty: &Ty) -> Result<bool, AllocError>
    ensures { IfOk result (λ b. b ≡ nat_lt 63 (levels_of (ir_type_of ty.now))) }
{
    let ty = ir_type(alloc, ty)?;
    Ok(63 < levels_of(&ty))
}

/// The limit that such a word passes.
pub(crate) fn deep_limit() -> Limit
    ensures { result ≡ deep_limit }
{
    Limit {
        what: What::Levels,
        found: 65,
        most: 64,
    }
}
