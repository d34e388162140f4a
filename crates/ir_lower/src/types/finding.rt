//! Signatures of functions, found by the calls that lack one.
//!
//! Nothing is promised of what is found: `check` tests it.

use crate::types::exprs::type_of;
use crate::types::functions::copies;
use crate::types::signature::{Signature, unsigned};
use crate::types::stop::{Call, Stop};
use dslx_core::Function;
use std::alloc::{AllocError, Global};
use xb_value::{Seq, Ty};

/// A signature for each function that fits no call of it.
pub fn unsigned_all(alloc: Global, functions: &[Function]) -> Result<Vec<Signature>, AllocError> {
    let mut signatures = Vec::new(alloc);
    'functions: for function in functions {
        signatures.push(unsigned(alloc, function.arity)?)?;
    }
    Ok(signatures)
}

/// Gives the function of a call its signature, and before it those that it calls and that have none. A function calls only those before
/// it, so each of them waits once at a time.
pub fn sign(
    alloc: Global,
    signatures: &mut Vec<Signature>,
    depth: u64,
    functions: &[Function],
    call: Call,
) -> Result<(), Stop> {
    let mut waiting = Vec::new(alloc);
    waiting.push(call)?;
    let most = (functions.len() as u64).saturating_mul(2).saturating_add(1);
    'turns: for _ in 0..most {
        match waiting.pop() {
            Some(call) => sign_top(alloc, signatures, depth, functions, &mut waiting, call)?,
            None => return Ok(()),
        }
    }
    if waiting.is_empty() {
        Ok(())
    } else {
        Err(Stop::Untyped)
    }
}

/// Gives the function of a call its signature, or has the call wait for that of a function that it needs.
fn sign_top(
    alloc: Global,
    signatures: &mut Vec<Signature>,
    depth: u64,
    functions: &[Function],
    waiting: &mut Vec<Call>,
    call: Call,
) -> Result<(), Stop> {
    match result_of_call(alloc, signatures.as_slice(), depth, functions, &call) {
        Ok(found) => put_signature(signatures, call, found),
        Err(Stop::Unsigned(missing)) => {
            waiting.push(call)?;
            waiting.push(missing)?;
            Ok(())
        }
        Err(stop) => Err(stop),
    }
}

fn put_signature(signatures: &mut Vec<Signature>, call: Call, found: Ty) -> Result<(), Stop> {
    let Call {
        function,
        arguments,
    } = call;
    let place = function as usize;
    if place < signatures.len() {
        signatures[place] = Signature {
            arguments: Seq::from_vec(arguments),
            result: found,
        };
    }
    Ok(())
}

/// The type of a function's body over the operands of a call.
fn result_of_call(
    alloc: Global,
    signatures: &[Signature],
    depth: u64,
    functions: &[Function],
    call: &Call,
) -> Result<Ty, Stop> {
    let place = call.function as usize;
    if place >= functions.len() || place >= signatures.len() {
        return Err(Stop::Untyped);
    }
    let mut bound = copies(alloc, call.arguments.as_slice())?;
    type_of(
        alloc,
        &signatures[..place],
        depth,
        &mut bound,
        &functions[place].body,
    )
}
