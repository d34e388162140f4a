//! Builtins of one operand, which is bits.

ghost use Rattle.std.specs.Prelude.{◌≡◌};
ghost use Rattle.xb_bits.specs.Operations as op;
ghost use Rattle.dslx_meaning.specs.Operators.{counted, reduced};
ghost use Rattle.dslx_values.specs.Operators.Inner.Operands.{only_operand};

use crate::bits_of;
use dslx_meaning::{DslxValue, SignedWord};
use xb_bits::{and_reduce, clz, ctz, or_reduce, rev, xor_reduce};

/// How many bits stand above the highest 1, in the type of the one operand.
#[tactic(auto, using(crate::proofs::OnOperators::Operands::counted_by_bits))]
pub fn count_leading(values: &[DslxValue]) -> Option<DslxValue>
    ensures { result ≡ counted op.clz values.now }
{
    match only_bits(values) {
        Some(x) => Some(DslxValue::Bits(x.signed, clz(x.word))),
        None => None,
    }
}

/// How many bits stand below the lowest 1, in the type of the one operand.
#[tactic(auto, using(crate::proofs::OnOperators::Operands::counted_by_bits))]
pub fn count_trailing(values: &[DslxValue]) -> Option<DslxValue>
    ensures { result ≡ counted op.ctz values.now }
{
    match only_bits(values) {
        Some(x) => Some(DslxValue::Bits(x.signed, ctz(x.word))),
        None => None,
    }
}

/// The bits of the one operand in the other order.
#[tactic(auto, using(crate::proofs::OnOperators::Operands::counted_by_bits))]
pub fn reversed(values: &[DslxValue]) -> Option<DslxValue>
    ensures { result ≡ counted op.rev values.now }
{
    match only_bits(values) {
        Some(x) => Some(DslxValue::Bits(x.signed, rev(x.word))),
        None => None,
    }
}

/// Whether all bits of the one operand are 1.
#[tactic(auto, using(crate::proofs::OnOperators::Operands::reduced_by_bits))]
pub fn all_ones(values: &[DslxValue]) -> Option<DslxValue>
    ensures { result ≡ reduced op.and_reduce values.now }
{
    match only_bits(values) {
        Some(x) => Some(DslxValue::Bits(false, and_reduce(x.word))),
        None => None,
    }
}

/// Whether some bit of the one operand is 1.
#[tactic(auto, using(crate::proofs::OnOperators::Operands::reduced_by_bits))]
pub fn some_one(values: &[DslxValue]) -> Option<DslxValue>
    ensures { result ≡ reduced op.or_reduce values.now }
{
    match only_bits(values) {
        Some(x) => Some(DslxValue::Bits(false, or_reduce(x.word))),
        None => None,
    }
}

/// Whether an odd number of bits of the one operand is 1.
#[tactic(auto, using(crate::proofs::OnOperators::Operands::reduced_by_bits))]
pub fn parity(values: &[DslxValue]) -> Option<DslxValue>
    ensures { result ≡ reduced op.xor_reduce values.now }
{
    match only_bits(values) {
        Some(x) => Some(DslxValue::Bits(false, xor_reduce(x.word))),
        None => None,
    }
}

/// The bits that the one operand is.
fn only_bits(values: &[DslxValue]) -> Option<SignedWord>
    ensures { result ≡ only_operand values.now }
{
    match values {
        [value] => bits_of(value),
        _ => None,
    }
}
