//! The signatures of a checked text's functions.

ghost use Rattle.std.specs.Prelude.{IfOk};
ghost use Rattle.ir_lower_nodes.specs.Exprs.Calls.{AreNodeFunctions};
ghost use Rattle.ir_lower.specs.Types.Signatures.{signatures_of};

use crate::members::{members_of, words_of};
use crate::procs::DEPTH;
use crate::types::{Signature, Stop, check, check_steps, sign, unsigned_all};
use dslx_core::{Design, Instance};
use dslx_interp::network::Elaborated;
use net_core::ProcHead;
use std::alloc::Global;
use xb_value::Ty;

/// The signature of each function, found by the calls in the procs of the network, and tested.
pub(crate) fn signatures_of(
    alloc: Global,
    design: &Design,
    made: &Elaborated,
) -> Result<Vec<Signature>, Stop>
    ensures { IfOk result (λ signatures. AreNodeFunctions (signatures_of signatures.items) design.now.functions) }
{
    let functions = design.functions.as_slice();
    let mut signatures = unsigned_all(alloc, functions)?;
    sign_all(alloc, design, made, &mut signatures)?;
    check(alloc, signatures.as_slice(), DEPTH, functions)?;
    Ok(signatures)
}

/// Finds the signatures of what the procs of the network call.
fn sign_all(
    alloc: Global,
    design: &Design,
    made: &Elaborated,
    signatures: &mut Vec<Signature>,
) -> Result<(), Stop> {
    let heads = made.net.procs.as_slice();
    let instances = design.procs.as_slice();
    'procs: for number in 0..heads.len() {
        if number < made.instances.len() {
            let place = made.instances[number] as usize;
            if place < instances.len() {
                sign_proc(
                    alloc,
                    design,
                    made,
                    &heads[number],
                    &instances[place],
                    signatures,
                )?;
            }
        }
    }
    Ok(())
}

/// Finds the signatures of what a proc calls.
fn sign_proc(
    alloc: Global,
    design: &Design,
    made: &Elaborated,
    head: &ProcHead,
    instance: &Instance,
    signatures: &mut Vec<Signature>,
) -> Result<(), Stop> {
    let members = members_of(alloc, instance, head.sites.as_slice())?;
    let words = words_of(alloc, made.net.chans.as_slice(), members.as_slice())?;
    'turns: for _ in 0..design.functions.len() {
        if sign_next(alloc, design, instance, words.as_slice(), signatures)? {
            return Ok(());
        }
    }
    Ok(())
}

/// Finds the signature of the first function that a proc calls and that has none, and says whether there is no such.
fn sign_next(
    alloc: Global,
    design: &Design,
    instance: &Instance,
    words: &[Ty],
    signatures: &mut Vec<Signature>,
) -> Result<bool, Stop> {
    match check_steps(alloc, signatures.as_slice(), DEPTH, words, instance) {
        Ok(()) => Ok(true),
        Err(Stop::Unsigned(call)) => {
            let functions = design.functions.as_slice();
            sign(alloc, signatures, DEPTH, functions, call)?;
            Ok(false)
        }
        Err(stop) => Err(stop),
    }
}
