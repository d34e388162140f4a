//! How many procs and channels there are.

ghost use Rattle.std.specs.Prelude.{◌≡◌, [], get_or, IfOk};
ghost use Rattle.dslx_interp.specs.Network.Inner.Counts.{and_count, and_children, count_of, counts_from, nothing};

use dslx_core::{Child, Instance};
use std::alloc::{AllocError, Global};

/// How many procs and channels a family has. Each stops at 2^64 - 1.
#[derive(Clone, Copy)]
pub(crate) struct Count {
    pub(crate) procs: u64,
    pub(crate) chans: u64,
}

impl Count {
    /// Both together.
    fn and(self, other: Count) -> Count
        ensures { result ≡ and_count self other }
    {
        Count {
            procs: self.procs.saturating_add(other.procs),
            chans: self.chans.saturating_add(other.chans),
        }
    }
}

/// The counts of all instances, each of which starts only those before it.
pub(crate) fn counts_of(alloc: Global, instances: &[Instance]) -> Result<Vec<Count>, AllocError>
    ensures { IfOk result (λ counts. counts.items ≡ counts_from [] instances.now) }
{
    let mut counts = Vec::new(alloc);
    'instances: for instance in instances {
        let count = count_of(counts.as_slice(), instance);
        counts.push(count)?;
    }
    Ok(counts)
}

fn count_of(counts: &[Count], instance: &Instance) -> Count
    ensures { result ≡ count_of counts.now instance.now }
{
    let own = Count {
        procs: 1,
        chans: instance.made.len() as u64,
    };
    and_children(counts, own, instance.children.as_slice())
}

fn and_children(counts: &[Count], own: Count, children: &[Child]) -> Count
    ensures { result ≡ and_children counts.now own children.now }
{
    let mut count = own;
    'children: for child in children {
        count = count.and(count_at(counts, child.instance));
    }
    count
}

/// The count of an instance. Where there is none, there is nothing.
pub(crate) fn count_at(counts: &[Count], instance: u64) -> Count
    ensures { result ≡ get_or counts.now instance nothing }
{
    match counts.get(instance as usize) {
        Some(count) => *count,
        None => Count { procs: 0, chans: 0 },
    }
}
