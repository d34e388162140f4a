//! Bit by bit, and one bit of all bits.

ghost use Rattle.std.specs.Prelude.{◌≡◌};
ghost use Rattle.xb_bits.specs.Operations as op;

use crate::bits::Bits;
use crate::numbers::mask;

/// The bits that are 1 in both of two numbers of one width.
pub fn and(a: Bits, b: Bits) -> Bits
    requires { a.width ≡ b.width }
    ensures { result ≡ op.and a b }
{
    Bits {
        width: a.width,
        value: a.value & b.value,
    }
}

/// The bits that are 1 in one or both of two numbers of one width.
#[tactic(auto, using(std::proofs::lemmas::Nat::or_lt))]
pub fn or(a: Bits, b: Bits) -> Bits
    requires { a.width ≡ b.width }
    ensures { result ≡ op.or a b }
{
    Bits {
        width: a.width,
        value: a.value | b.value,
    }
}

/// The bits in which two numbers of one width differ.
#[tactic(auto, using(std::proofs::lemmas::Nat::xor_lt))]
pub fn xor(a: Bits, b: Bits) -> Bits
    requires { a.width ≡ b.width }
    ensures { result ≡ op.xor a b }
{
    Bits {
        width: a.width,
        value: a.value ^ b.value,
    }
}

/// Each bit flipped.
pub fn not(a: Bits) -> Bits
    ensures { result ≡ op.not a }
{
    Bits {
        width: a.width,
        value: mask(a.width) - a.value,
    }
}

/// One bit: whether all bits are 1.
pub fn and_reduce(a: Bits) -> Bits
    ensures { result ≡ op.and_reduce a }
{
    let all = a.value == mask(a.width);
    Bits {
        width: 1,
        value: if all { 1 } else { 0 },
    }
}

/// One bit: whether some bit is 1.
pub fn or_reduce(a: Bits) -> Bits
    ensures { result ≡ op.or_reduce a }
{
    Bits {
        width: 1,
        value: if a.value == 0 { 0 } else { 1 },
    }
}

/// One bit: whether an odd number of bits is 1.
pub fn xor_reduce(a: Bits) -> Bits
    ensures { result ≡ op.xor_reduce a }
{
    Bits {
        width: 1,
        value: u128::from(a.value.count_ones() % 2),
    }
}
