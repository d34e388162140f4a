//! The procs of a package.

ghost use Rattle.std.specs.Prelude.{◌≡◌, slice_get, IfOk};
ghost use Rattle.dslx_core.specs.declared.design.Instance.{Instance};
ghost use Rattle.ir_lower.specs.Inner.Made.{AreLowered, IsLoweredAt, IsLoweredProc, ProcLowers};

use crate::channels::name_copy;
use crate::constants::written;
use crate::members::{members_of, words_of};
use crate::types::{Signature, Stop, check_steps};
use base::texts::Name;
use dslx_core::{Design, Function, Instance};
use dslx_interp::network::Elaborated;
use ir_lower_nodes::procs::lower_next;
use ir_rebuild::putting::{Nodes, ir_type};
use ir_tree::Proc;
use net_core::{Chan, ProcHead};
use std::alloc::{AllocError, Global};
use xb_value::Seq;

/// How deep the parts of an expression may stand one in another, with the calls put in place. What is deeper counts as want of memory.
pub(crate) const DEPTH: u64 = 4096;

/// A proc for each one of a network.
pub(crate) fn procs_of(
    alloc: Global,
    signatures: &[Signature],
    design: &Design,
    made: &Elaborated,
) -> Result<Seq<Proc>, Stop>
    ensures { IfOk result (λ procs. AreLowered signatures.now design.now made.now.net.chans made.now.instances.items procs) }
{
    let mut procs = Vec::new(alloc);
    'procs: for number in 0..made.net.procs.len() {
        procs.push(proc_at(alloc, signatures, design, made, number)?)?;
    }
    Ok(Seq::from_vec(procs))
}

/// The proc of this number.
fn proc_at(
    alloc: Global,
    signatures: &[Signature],
    design: &Design,
    made: &Elaborated,
    number: usize,
) -> Result<Proc, Stop>
    ensures { IfOk result (λ proc. IsLoweredAt signatures.now design.now made.now.net.chans made.now.instances.items number proc) }
{
    let heads = made.net.procs.as_slice();
    let instances = made.instances.as_slice();
    if number < heads.len() && number < instances.len() {
        proc_of(
            alloc,
            signatures,
            design,
            made.net.chans.as_slice(),
            &heads[number],
            instances[number],
        )
    } else {
        Err(Stop::Untyped)
    }
}

/// A proc with this head, of the instance of this number.
fn proc_of(
    alloc: Global,
    signatures: &[Signature],
    design: &Design,
    chans: &[Chan],
    head: &ProcHead,
    number: u64,
) -> Result<Proc, Stop>
    ensures { IfOk result (λ proc. (i : Instance) × (slice_get design.now.procs number ≡ Some i) × IsLoweredProc signatures.now design.now.functions chans.now i proc) }
{
    let instances = design.procs.as_slice();
    let place = number as usize;
    if place < instances.len() {
        let functions = design.functions.as_slice();
        lower_instance(alloc, signatures, functions, chans, head, &instances[place])
    } else {
        Err(Stop::Untyped)
    }
}

/// A proc with this head, of an instance.
fn lower_instance(
    alloc: Global,
    signatures: &[Signature],
    functions: &[Function],
    chans: &[Chan],
    head: &ProcHead,
    instance: &Instance,
) -> Result<Proc, Stop>
    ensures { IfOk result (λ proc. IsLoweredProc signatures.now functions.now chans.now instance.now proc) }
{
    let members = members_of(alloc, instance, head.sites.as_slice())?;
    let words = words_of(alloc, chans, members.as_slice())?;
    check_steps(alloc, signatures, DEPTH, words.as_slice(), instance)?;
    let name = name_copy(alloc, &head.path)?;
    let proc = put_proc(alloc, functions, members.as_slice(), name, instance)?;
    Ok(proc)
}

/// A proc of this name, of an instance whose members are ends of these channels.
fn put_proc(
    alloc: Global,
    functions: &[Function],
    members: &[u32],
    name: Name,
    instance: &Instance,
) -> Result<Proc, AllocError>
    ensures { IfOk result (λ proc. ProcLowers functions.now members.now instance.now proc) }
{
    let state = ir_type(alloc, &instance.state)?;
    let mut nodes = Nodes::new(alloc, state);
    let next = lower_next(alloc, functions, DEPTH, members, &mut nodes, instance)?;
    let init = written(alloc, &instance.opening)?;
    let (state, list) = nodes.into_parts();
    Ok(Proc {
        name,
        state,
        init,
        nodes: Seq::from_vec(list),
        next,
    })
}
