//! Whether two networks are one.

ghost use Rattle.std.specs.Prelude.{◌≡◌, IsTrue};

use net_core::{Chan, Net, ProcHead, Site};

/// Whether the two are one network.
pub(crate) fn is_net(net: &Net, other: &Net) -> bool
    ensures { IsTrue result → net.now ≡ other.now }
{
    net.name == other.name
        && are_heads(net.procs.as_slice(), other.procs.as_slice())
        && are_chans(net.chans.as_slice(), other.chans.as_slice())
}

fn are_heads(heads: &[ProcHead], others: &[ProcHead]) -> bool
    ensures { IsTrue result → heads.now ≡ others.now }
{
    if heads.len() != others.len() {
        return false;
    }
    'heads: for i in 0..heads.len() {
        if !is_head(&heads[i], &others[i]) {
            return false;
        }
    }
    true
}

fn is_head(head: &ProcHead, other: &ProcHead) -> bool
    ensures { IsTrue result → head.now ≡ other.now }
{
    head.path == other.path
        && head.state.is(&other.state)
        && head.init.is(&other.init)
        && are_sites(head.sites.as_slice(), other.sites.as_slice())
}

fn are_sites(sites: &[Site], others: &[Site]) -> bool
    ensures { IsTrue result → sites.now ≡ others.now }
{
    if sites.len() != others.len() {
        return false;
    }
    'sites: for i in 0..sites.len() {
        if sites[i] != others[i] {
            return false;
        }
    }
    true
}

fn are_chans(chans: &[Chan], others: &[Chan]) -> bool
    ensures { IsTrue result → chans.now ≡ others.now }
{
    if chans.len() != others.len() {
        return false;
    }
    'chans: for i in 0..chans.len() {
        if !is_chan(&chans[i], &others[i]) {
            return false;
        }
    }
    true
}

fn is_chan(chan: &Chan, other: &Chan) -> bool
    ensures { IsTrue result → chan.now ≡ other.now }
{
    chan.name == other.name
        && chan.ty.is(&other.ty)
        && chan.kind == other.kind
        && chan.depth == other.depth
}
