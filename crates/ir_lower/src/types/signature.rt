//! Signatures of functions.

ghost use Rattle.std.specs.Prelude.{◌≡◌, Some, true, IfSome, IsTrue, map};
ghost use Rattle.dslx_meaning.specs.Lists.{pairwise};
ghost use Rattle.dslx_core.specs.Types.Typing.{is_type};
ghost use Rattle.ir_lower.specs.Types.Signatures.{call_types};

use std::alloc::{AllocError, Global};
use xb_value::{Seq, Ty};

/// The types of a function's operands, and that of its result.
#[derive(Drop)]
pub struct Signature {
    pub arguments: Seq<Ty>,
    pub result: Ty,
}

/// A signature that fits no call of a function of so many operands: it has one more.
pub(crate) fn unsigned(alloc: Global, arity: u64) -> Result<Signature, AllocError> {
    let mut arguments = Vec::new(alloc);
    'operands: for _ in 0..arity {
        arguments.push(Ty::Tuple(Seq::new(alloc)))?;
    }
    arguments.push(Ty::Tuple(Seq::new(alloc)))?;
    Ok(Signature {
        arguments: Seq::from_vec(arguments),
        result: Ty::Tuple(Seq::new(alloc)),
    })
}

/// What the function of a number gives for operands of these types.
pub(crate) fn result_of<'a>(
    signatures: &'a [Signature],
    function: u64,
    types: &[Ty],
) -> Option<&'a Ty>
    ensures { IfSome result (λ t. call_types signatures.now function types.now ≡ Some t.now) }
{
    let place = function as usize;
    if place < signatures.len() {
        result_for(&signatures[place], types)
    } else {
        None
    }
}

/// What a function of this signature gives for operands of these types.
fn result_for<'a>(signature: &'a Signature, types: &[Ty]) -> Option<&'a Ty>
    ensures { IfSome result (λ t. (pairwise is_type signature.now.arguments types.now ≡ true) × (t.now ≡ signature.now.result)) }
{
    if are_alike(signature.arguments.as_slice(), types) {
        Some(&signature.result)
    } else {
        None
    }
}

/// Whether the two lists have the same types.
fn are_alike(types: &[Ty], others: &[Ty]) -> bool
    ensures { IsTrue result → pairwise is_type types.now others.now ≡ true }
{
    if types.len() != others.len() {
        return false;
    }
    'types: for i in 0..types.len() {
        if !types[i].is(&others[i]) {
            return false;
        }
    }
    true
}
