//! Functions, each of which has its signature.

ghost use Rattle.std.specs.Prelude.{◌≡◌, ◌<◌, length, IfOk, OnOk};
ghost use Rattle.ir_lower_nodes.specs.Exprs.Calls.{AreNodeFunctions};
ghost use Rattle.ir_lower_nodes.specs.Exprs.NodeTypes.{node_type};
ghost use Rattle.ir_lower.specs.Types.Signatures.{call_types, signatures_of};
ghost use Rattle.ir_lower.specs.Types.Typed.{IsSigned};

use crate::types::exprs::type_of;
use crate::types::signature::Signature;
use crate::types::stop::Stop;
use dslx_core::Function;
use std::alloc::Global;
use xb_value::Ty;

/// Each signature is that of the function of its number, over those before it: as many operands, and a body of the type of the result,
/// each part of which has a type that a node may have.
pub fn check(
    alloc: Global,
    signatures: &[Signature],
    depth: u64,
    functions: &[Function],
) -> Result<(), Stop>
    ensures { OnOk result (AreNodeFunctions (signatures_of signatures.now) functions.now) }
{
    'signatures: for number in 0..signatures.len() {
        check_one(alloc, signatures, depth, functions, number)?;
    }
    Ok(())
}

/// The same for one signature.
fn check_one(
    alloc: Global,
    signatures: &[Signature],
    depth: u64,
    functions: &[Function],
    number: usize,
) -> Result<(), Stop>
    requires { number < length signatures.now }
    ensures { OnOk result (IsSigned signatures.now functions.now number) }
{
    if number < functions.len() {
        let before = &signatures[..number];
        check_body(
            alloc,
            before,
            depth,
            &signatures[number],
            &functions[number],
        )
    } else {
        Err(Stop::Untyped)
    }
}

/// A function has this signature, over these before it.
fn check_body(
    alloc: Global,
    before: &[Signature],
    depth: u64,
    signature: &Signature,
    function: &Function,
) -> Result<(), Stop>
    ensures arity { OnOk result (length signature.now.arguments ≡ function.now.arity) }
    ensures body { OnOk result (node_type function.now.body (call_types before.now) signature.now.arguments ≡ Some signature.now.result) }
{
    if signature.arguments.len() as u64 != function.arity {
        return Err(Stop::Untyped);
    }
    let mut bound = copies(alloc, signature.arguments.as_slice())?;
    let ty = type_of(alloc, before, depth, &mut bound, &function.body)?;
    if ty.is(&signature.result) {
        Ok(())
    } else {
        Err(Stop::Untyped)
    }
}

/// A copy of each type.
pub(crate) fn copies(alloc: Global, types: &[Ty]) -> Result<Vec<Ty>, Stop>
    ensures { IfOk result (λ ts. ts.items ≡ types.now) }
{
    let mut copies = Vec::new(alloc);
    'types: for ty in types {
        copies.push(ty.copy(alloc)?)?;
    }
    Ok(copies)
}
