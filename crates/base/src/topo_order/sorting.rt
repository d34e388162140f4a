ghost use Rattle.std.specs.Prelude.{◌≡◌, ◌<◌, ◌^◌, length, IfOk};
ghost use Rattle.base.specs.TopoOrder.Needs.{AreClosed, IsOrderOf, Reaches};
ghost use Rattle.base.specs.TopoOrder.Sorted.{IsSorting};

use crate::topo_order::walk::{Mark, Walk};
use sqlite_items::Items;
use std::alloc::{AllocError, Global};

/// What a walk over needs comes to.
#[derive(Drop)]
pub enum Sorted {
    /// Each thing once, behind all that it needs.
    Order(Vec<u32>),
    /// This thing needs itself, by way of others or not.
    Cycle(u32),
}

/// An order of things in which each stands behind all that it needs, or a thing that needs itself.
///
/// `needs[i]` lists what thing i needs. It takes time and memory linear in the things and needs, and doesn't recurse.
pub fn sort(alloc: Global, needs: &[Items<u32>]) -> Result<Sorted, AllocError>
    requires closed { AreClosed needs.now }
    requires few { length needs.now < 2 ^ 32 }
    ensures { IfOk result (λ sorted. IsSorting needs.now sorted) }
{
    let mut walk = Walk::new(alloc, needs.len())?;
    for thing in 0..needs.len() as u32 {
        if walk.mark(thing) == Mark::New {
            if let Some(found) = walk.visit(needs, thing)? {
                return Ok(Sorted::Cycle(found));
            }
        }
    }
    Ok(Sorted::Order(walk.order))
}
