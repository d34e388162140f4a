//! How large a network is, and the limits on that.

ghost use Rattle.std.specs.Prelude.{◌≡◌, ◌<◌, ◌+◌, ℕ, List, Option, Some, None};
ghost use Rattle.xb_span.specs.Fault.{first_of};
ghost use Rattle.xb_span.specs.declared.fault.Fault.TheVariants.{Whole};
ghost use Rattle.dslx_tree.specs.declared.item.Module.{Module};
ghost use Rattle.dslx_tree.specs.declared.process.Proc.{Proc};
ghost use Rattle.dslx_meaning.specs.Network.{top_proc};
ghost use Rattle.dslx_meaning.specs.Rules.NetworkLimits.{network_count, network_faults};
ghost use Rattle.dslx.specs.Count.Sizes.{both_sizes, limit_passed, size_of_count};

use xb_span::{Fault, Limit, What};

/// How many procs and channels there are, each counted up to one more than there may be.
#[derive(Clone, Copy)]
pub struct NetworkSize {
    pub procs: u64,
    pub channels: u64,
}

/// The most procs of a network.
const MOST_PROCS: u64 = 256;

/// The most channels of a network.
const MOST_CHANNELS: u64 = 1024;

impl NetworkSize {
    /// Both together.
    pub(crate) fn and(self, other: NetworkSize) -> NetworkSize
        ensures { result ≡ both_sizes self other }
    {
        NetworkSize {
            procs: self.procs.saturating_add(other.procs).min(MOST_PROCS + 1),
            channels: self
                .channels
                .saturating_add(other.channels)
                .min(MOST_CHANNELS + 1),
        }
    }
}

/// The limit that a network of a text passes; procs come first. Where it passes none, it has just as many procs and channels as were counted.
pub fn over_limit(size: NetworkSize) -> Option<Fault>
    ensures passed { (m : Module) (name : Option (List ℕ)) (p : Proc) → top_proc m name ≡ Some p → size ≡ size_of_count (network_count m name p) → result ≡ first_of (network_faults m name (top_proc m name)) }
    ensures exact { (m : Module) (name : Option (List ℕ)) (p : Proc) → size ≡ size_of_count (network_count m name p) → result ≡ None → (size.procs ≡ (network_count m name p).procs) × (size.channels ≡ (network_count m name p).channels) }
{
    passed_limit(size)
}

fn passed_limit(size: NetworkSize) -> Option<Fault>
    ensures { result ≡ limit_passed size }
{
    if MOST_PROCS < size.procs {
        Some(one_more(What::Procs, MOST_PROCS))
    } else if MOST_CHANNELS < size.channels {
        Some(one_more(What::Channels, MOST_CHANNELS))
    } else {
        None
    }
}

/// One more than there may be.
fn one_more(what: What, most: u64) -> Fault
    requires { most < 18446744073709551615 }
    ensures { result ≡ Whole (record { what = what; found = most + 1; most = most }) }
{
    Fault::Whole(Limit {
        what,
        found: most + 1,
        most,
    })
}
