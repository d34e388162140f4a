//! Elaboration procs, each before those that it starts.

ghost use Rattle.std.specs.Prelude.{◌≡◌, ◌≤◌, ◌<◌, ◌^◌, ◌+◌, ◌∷◌, ◌++◌, [], ℕ, List, Some, length, map, slice_get, IfOk, OnOk};
ghost use Rattle.dslx_core.specs.Designs.{made_of};
ghost use Rattle.dslx_core.specs.declared.design.Instance.{Instance};
ghost use Rattle.dslx_interp.specs.Network.Linked.{AllBelow, AreChildren, IsLinkedInstance};
ghost use Rattle.dslx_interp.specs.Network.Inner.Pending.{ArePending, IsPending, all_procs, all_chans, all_instances, child_pending, children_pending, own_head};

use crate::network::channels::{channels_of_ends, push_made};
use crate::network::heads::head_of;
use base::stacks::Stack;
use base::texts::{Name, push_decimal};
use dslx_core::{Child, Instance};
use net_core::{Chan, ProcHead};
use std::alloc::{AllocError, Global};
use xb_value::Seq;

/// Procs and channels that are elaborated.
#[derive(Drop)]
pub(crate) struct Family {
    pub(crate) procs: Vec<ProcHead>,
    /// The number of each proc's instance.
    pub(crate) instances: Vec<u64>,
    pub(crate) chans: Vec<Chan>,
}

/// A proc that is still to be elaborated: its path, the number of its instance, and the channel of each end that it is given.
#[derive(Drop)]
pub(crate) struct Pending {
    pub(crate) path: Name,
    pub(crate) instance: u64,
    pub(crate) given: Seq<u64>,
}

/// Places so many procs, the top of the stack first, each with those that it starts behind it.
pub(crate) fn place_all(
    alloc: Global,
    instances: &[Instance],
    count: u64,
    pending: &mut Stack<Pending>,
    family: &mut Family,
) -> Result<(), AllocError>
    requires linked { (k : ℕ) (i : Instance) → slice_get instances.now k ≡ Some i → IsLinkedInstance instances.now i }
    requires pending { ArePending instances.now (length family.old.chans.items) pending.old }
    requires count { length (all_procs instances.now family.old pending.old) ≡ length family.old.procs.items + count }
    requires few { length (all_chans instances.now family.old pending.old) ≤ 1024 }
    ensures procs { OnOk result (family.new.procs.items ≡ all_procs instances.now family.old pending.old) }
    ensures instances { OnOk result (map (slice_get instances.now) family.new.instances.items ≡ all_instances instances.now family.old pending.old) }
    ensures chans { OnOk result (family.new.chans.items ≡ all_chans instances.now family.old pending.old) }
{
    'procs: for _ in 0..count {
        if let Some(next) = pending.take_off() {
            place_one(alloc, instances, next, pending, family)?;
        }
    }
    Ok(())
}

/// Places a proc: what is elaborated and pending in all stays the same.
fn place_one(
    alloc: Global,
    instances: &[Instance],
    next: Pending,
    pending: &mut Stack<Pending>,
    family: &mut Family,
) -> Result<(), AllocError>
    requires linked { (k : ℕ) (i : Instance) → slice_get instances.now k ≡ Some i → IsLinkedInstance instances.now i }
    requires next { IsPending instances.now (length family.old.chans.items) next }
    requires pending { ArePending instances.now (length family.old.chans.items) pending.old }
    requires few { length (all_chans instances.now family.old (next ∷ pending.old)) ≤ 1024 }
    ensures procs { OnOk result (all_procs instances.now family.new pending.new ≡ all_procs instances.now family.old (next ∷ pending.old)) }
    ensures instances { OnOk result (all_instances instances.now family.new pending.new ≡ all_instances instances.now family.old (next ∷ pending.old)) }
    ensures chans { OnOk result (all_chans instances.now family.new pending.new ≡ all_chans instances.now family.old (next ∷ pending.old)) }
    ensures one { OnOk result (length family.new.procs.items ≡ length family.old.procs.items + 1) }
    ensures pending { OnOk result (ArePending instances.now (length family.new.chans.items) pending.new) }
{
    let instance = &instances[next.instance as usize];
    let number = place_own(alloc, instance, &next, family)?;
    push_children(alloc, &next, number, instance.children.as_slice(), pending)?;
    Ok(())
}

/// Places a proc itself, with the channels that it makes; gives the number of the first of these.
fn place_own(
    alloc: Global,
    instance: &Instance,
    next: &Pending,
    family: &mut Family,
) -> Result<u64, AllocError>
    requires members { AllBelow (length next.now.given + length instance.now.made) instance.now.members }
    requires given { AllBelow (length family.old.chans.items) next.now.given }
    requires few { length family.old.chans.items + length instance.now.made ≤ 1024 }
    ensures number { IfOk result (λ number. number ≡ length family.old.chans.items) }
    ensures procs { OnOk result (family.new.procs.items ≡ family.old.procs.items ++ own_head next.now instance.now (length family.old.chans.items) ∷ []) }
    ensures instances { OnOk result (family.new.instances.items ≡ family.old.instances.items ++ next.now.instance ∷ []) }
    ensures chans { OnOk result (family.new.chans.items ≡ family.old.chans.items ++ map (made_of next.now.path) instance.now.made) }
{
    let number = family.chans.len() as u64;
    let (given, members) = (next.given.as_slice(), instance.members.as_slice());
    let channels = channels_of_ends(alloc, given, number, members)?;
    let head = head_of(alloc, &next.path, instance, channels.as_slice())?;
    push_made(
        alloc,
        &next.path,
        instance.made.as_slice(),
        &mut family.chans,
    )?;
    family.procs.push(head)?;
    family.instances.push(next.instance)?;
    Ok(number)
}

/// Puts the procs that a proc starts on the stack, the first on top; of its own channels the first has this number.
fn push_children(
    alloc: Global,
    parent: &Pending,
    number: u64,
    children: &[Child],
    pending: &mut Stack<Pending>,
) -> Result<(), AllocError>
    requires { (made : ℕ) × (instances : List Instance) × (number + made < 2 ^ 64) × AreChildren instances (length parent.now.given + made) children.now }
    ensures { OnOk result (pending.new ≡ children_pending parent.now.path parent.now.instance parent.now.given number 0 children.now ++ pending.old) }
{
    'children: for left in 0..children.len() {
        let n = children.len() - 1 - left;
        let child = &children[n];
        if child.instance < parent.instance {
            let given = parent.given.as_slice();
            pending.push(child_pending(alloc, &parent.path, given, number, n as u64, child)?)?;
        }
    }
    Ok(())
}

fn child_pending(
    alloc: Global,
    path: &Name,
    given: &[u64],
    number: u64,
    n: u64,
    child: &Child,
) -> Result<Pending, AllocError>
    requires { (made : ℕ) × (number + made < 2 ^ 64) × AllBelow (length given.now + made) child.now.ends }
    ensures { IfOk result (λ p. p ≡ child_pending path.now given.now number n child.now) }
{
    let mut name = String::from_str(alloc, path.as_str())?;
    name.push_str(".")?;
    push_decimal(&mut name, n)?;
    Ok(Pending {
        path: Name::from_string(name),
        instance: child.instance,
        given: channels_of_ends(alloc, given, number, child.ends.as_slice())?,
    })
}
