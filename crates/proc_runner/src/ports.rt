ghost use Rattle.std.specs.Prelude.{◌≡◌, ◌≢◌, ◌<◌, ◌^◌, ℕ, IfOk, MatchBool, Some, length, slice_get};
ghost use Rattle.proc_runner.specs.Inner.Ended.{AreOutletsOf, AreInletsOf, HasIndices, AreSiteIndices, HasEndOn, IsEndAt, out_chan, in_chan};

use chan_queue::{RecvPass, SendPass};
use net_core::Site;
use proc_task::{Inlet, Outlet};
use std::alloc::{AllocError, Global};

/// The outlets of proc `p`: one for each channel that it sends on. Its rights to send are taken out of the list.
pub(crate) fn outlets<S>(
    alloc: Global,
    p: usize,
    senders: &[usize],
    sends: &mut Vec<Option<SendPass<S>>>,
) -> Result<Vec<Outlet<S>>, AllocError>
    requires { (length senders.now ≡ length sends.old.items) × (length senders.now < 2 ^ 32) }
    ensures count { length sends.new.items ≡ length sends.old.items }
    ensures rest { (c : ℕ) → slice_get senders.now c ≢ Some p → slice_get sends.new.items c ≡ slice_get sends.old.items c }
    ensures outlets { IfOk result (λ outlets. AreOutletsOf p senders.now sends.old.items (length senders.now) outlets.items) }
{
    let mut outlets = Vec::new(alloc);
    for c in 0..senders.len() {
        if senders[c] != p {
            continue;
        }
        let pass = sends[c].take();
        let words = Vec::new(alloc);
        let chan = c as u32;
        outlets.push(Outlet { chan, words, pass })?;
    }
    Ok(outlets)
}

/// The inlets of proc `p`: one for each channel that it receives from.
pub(crate) fn inlets<S>(
    alloc: Global,
    p: usize,
    receivers: &[usize],
    recvs: &mut Vec<Option<RecvPass<S>>>,
) -> Result<Vec<Inlet<S>>, AllocError>
    requires { (length receivers.now ≡ length recvs.old.items) × (length receivers.now < 2 ^ 32) }
    ensures count { length recvs.new.items ≡ length recvs.old.items }
    ensures rest { (c : ℕ) → slice_get receivers.now c ≢ Some p → slice_get recvs.new.items c ≡ slice_get recvs.old.items c }
    ensures inlets { IfOk result (λ inlets. AreInletsOf p receivers.now recvs.old.items (length receivers.now) inlets.items) }
{
    let mut inlets = Vec::new(alloc);
    for c in 0..receivers.len() {
        if receivers[c] != p {
            continue;
        }
        let pass = recvs[c].take();
        let chan = c as u32;
        let received = 0;
        inlets.push(Inlet {
            chan,
            received,
            pass,
        })?;
    }
    Ok(inlets)
}

/// The index of each site's outlet, or inlet.
pub(crate) fn indices<S>(
    alloc: Global,
    sites: &[Site],
    outlets: &[Outlet<S>],
    inlets: &[Inlet<S>],
) -> Result<Vec<u32>, AllocError>
    requires { HasIndices sites.now outlets.now inlets.now × (length outlets.now < 2 ^ 32) × (length inlets.now < 2 ^ 32) }
    ensures { IfOk result (λ indices. AreSiteIndices sites.now indices.items outlets.now inlets.now) }
{
    let mut indices = Vec::new(alloc);
    for site in sites {
        indices.push(index_of(site, outlets, inlets))?;
    }
    Ok(indices)
}

/// The index of a site's outlet, or inlet.
fn index_of<S>(site: &Site, outlets: &[Outlet<S>], inlets: &[Inlet<S>]) -> u32
    requires end { MatchBool site.now.sends (HasEndOn out_chan outlets.now site.now.chan) (HasEndOn in_chan inlets.now site.now.chan) }
    requires few { (length outlets.now < 2 ^ 32) × (length inlets.now < 2 ^ 32) }
    ensures { MatchBool site.now.sends (IsEndAt out_chan outlets.now site.now.chan result) (IsEndAt in_chan inlets.now site.now.chan result) }
{
    if site.sends {
        outlet_index(outlets, site.chan) as u32
    } else {
        inlet_index(inlets, site.chan) as u32
    }
}

/// The index of a channel's outlet.
fn outlet_index<S>(outlets: &[Outlet<S>], chan: u32) -> usize
    requires { HasEndOn out_chan outlets.now chan }
    ensures end { IsEndAt out_chan outlets.now chan result }
    ensures within { result < length outlets.now }
{
    for (place, outlet) in outlets.iter().enumerate() {
        if outlet.chan == chan {
            return place;
        }
    }
    unreachable!()
}

/// The index of a channel's inlet.
fn inlet_index<S>(inlets: &[Inlet<S>], chan: u32) -> usize
    requires { HasEndOn in_chan inlets.now chan }
    ensures end { IsEndAt in_chan inlets.now chan result }
    ensures within { result < length inlets.now }
{
    for (place, inlet) in inlets.iter().enumerate() {
        if inlet.chan == chan {
            return place;
        }
    }
    unreachable!()
}
