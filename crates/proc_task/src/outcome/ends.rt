ghost use Rattle.std.specs.Prelude.{◌≡◌};
ghost use Rattle.net_core.specs.Cuts.{index_of};
ghost use Rattle.proc_task.specs.Outcome.Places.{head_sends, head_receives};

use net_core::ProcHead;

/// The index of the proc that sends on a channel, or the number of procs.
pub fn sender(heads: &[ProcHead], chan: u32) -> usize
    ensures { result ≡ index_of (head_sends chan) heads.now }
{
    for (place, head) in heads.iter().enumerate() {
        if sends_on(head, chan) {
            return place;
        }
    }
    heads.len()
}

/// The index of the proc that receives from a channel, or the number of procs.
pub fn receiver(heads: &[ProcHead], chan: u32) -> usize
    ensures { result ≡ index_of (head_receives chan) heads.now }
{
    for (place, head) in heads.iter().enumerate() {
        if receives_on(head, chan) {
            return place;
        }
    }
    heads.len()
}

/// A proc has a site that sends on the channel.
fn sends_on(head: &ProcHead, chan: u32) -> bool
    ensures { result ≡ head_sends chan head.now }
{
    head.sites
        .as_slice()
        .iter()
        .any(|site| site.sends && site.chan == chan)
}

/// A proc has a site that receives from the channel.
fn receives_on(head: &ProcHead, chan: u32) -> bool
    ensures { result ≡ head_receives chan head.now }
{
    head.sites
        .as_slice()
        .iter()
        .any(|site| !site.sends && site.chan == chan)
}
