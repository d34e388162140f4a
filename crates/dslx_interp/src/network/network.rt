//! The network of a checked text, or the limit that it passes.

ghost use Rattle.std.specs.Prelude.{◌≡◌, ◌⊎◌, ◌≤◌, Some, None, length, map, slice_get, IfOk, IfErr};
ghost use Rattle.xb_span.specs.declared.read_error.ReadError.TheVariants.{OutOfMemory, Over};
ghost use Rattle.xb_span.specs.declared.limit.Limit.{Limit};
ghost use Rattle.dslx_core.specs.Designs.{core_family, core_network, last_index, numbers_from};
ghost use Rattle.dslx_interp.specs.Network.Bodies.{own_instance};
ghost use Rattle.dslx_interp.specs.Network.Limits.{limit_passed, network_limit};
ghost use Rattle.dslx_interp.specs.Network.Linked.{IsLinked};
ghost use Rattle.dslx_interp.specs.Network.Inner.Pending.{first_pending};

use crate::network::channels::{name_copy, outer_chans};
use crate::network::count::{count_at, counts_of};
use crate::network::family::{Family, Pending, place_all};
use base::stacks::Stack;
use dslx_core::{Design, Outer};
use net_core::Net;
use std::alloc::{AllocError, Global};
use xb_span::{Limit, ReadError, What};
use xb_value::Seq;

/// A network, with the number of each proc's instance in the checked text.
#[derive(Drop)]
pub struct Elaborated {
    pub net: Net,
    pub instances: Vec<u64>,
}

/// The network of a checked text.
///
/// One of more than 256 procs is refused, and else one of more than 1,024 channels, outer and inner.
pub fn elaborate(alloc: Global, design: &Design) -> Result<Elaborated, ReadError>
    requires { IsLinked design.now }
    ensures net { IfOk result (λ made. made.net ≡ core_network design.now) }
    ensures instances { IfOk result (λ made. map (slice_get design.now.procs) made.instances.items ≡ map own_instance (core_family design.now).procs) }
    ensures within { IfOk result (λ made. network_limit made.net ≡ None) }
    ensures refused { IfErr result (λ e. (e ≡ OutOfMemory) ⊎ ((l : Limit) × (network_limit (core_network design.now) ≡ Some l) × (e ≡ Over l))) }
{
    let instances = design.procs.as_slice();
    let top = (instances.len() as u64).saturating_sub(1);
    let counts = counts_of(alloc, instances)?;
    let count = count_at(counts.as_slice(), top);
    let chans = count.chans.saturating_add(design.outer.len() as u64);
    if let Some(limit) = limit_passed(count.procs, chans) {
        return Err(ReadError::Over(limit));
    }
    Ok(made(alloc, design, top, count.procs)?)
}

/// The limit that so many procs and channels pass.
fn limit_passed(procs: u64, chans: u64) -> Option<Limit>
    ensures { result ≡ limit_passed procs chans }
{
    if procs > 256 {
        Some(Limit {
            what: What::Procs,
            found: 257,
            most: 256,
        })
    } else if chans > 1024 {
        Some(Limit {
            what: What::Channels,
            found: 1025,
            most: 1024,
        })
    } else {
        None
    }
}

/// The network, which has so many procs.
fn made(alloc: Global, design: &Design, top: u64, count: u64) -> Result<Elaborated, AllocError>
    requires linked { IsLinked design.now }
    requires top { top ≡ last_index design.now.procs }
    requires count { length (core_network design.now).procs ≡ count }
    requires few { length (core_network design.now).chans ≤ 1024 }
    ensures net { IfOk result (λ made. made.net ≡ core_network design.now) }
    ensures instances { IfOk result (λ made. map (slice_get design.now.procs) made.instances.items ≡ map own_instance (core_family design.now).procs) }
{
    let mut family = Family {
        procs: Vec::new(alloc),
        instances: Vec::new(alloc),
        chans: outer_chans(alloc, design.outer.as_slice())?,
    };
    let mut pending = first_pending(alloc, design, top)?;
    let instances = design.procs.as_slice();
    place_all(alloc, instances, count, &mut pending, &mut family)?;
    let Family {
        procs,
        instances,
        chans,
    } = family;
    let net = Net {
        name: name_copy(alloc, &design.name)?,
        procs: Seq::from_vec(procs),
        chans: Seq::from_vec(chans),
    };
    Ok(Elaborated { net, instances })
}

/// The top on a stack, where there is one.
fn first_pending(alloc: Global, design: &Design, top: u64) -> Result<Stack<Pending>, AllocError>
    requires { top ≡ last_index design.now.procs }
    ensures { IfOk result (λ pending. pending ≡ first_pending design.now) }
{
    let mut pending = Stack::new(alloc);
    if !design.procs.is_empty() {
        pending.push(Pending {
            path: name_copy(alloc, &design.name)?,
            instance: top,
            given: numbers_of(alloc, design.outer.as_slice())?,
        })?;
    }
    Ok(pending)
}

/// The numbers of the outer channels, from 0 on.
fn numbers_of(alloc: Global, outer: &[Outer]) -> Result<Seq<u64>, AllocError>
    ensures { IfOk result (λ numbers. numbers ≡ numbers_from 0 outer.now) }
{
    let mut numbers = Vec::new(alloc);
    'outer: for number in 0..outer.len() {
        numbers.push(number as u64)?;
    }
    Ok(Seq::from_vec(numbers))
}
