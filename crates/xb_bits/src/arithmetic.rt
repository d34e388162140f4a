//! Sums, products and quotients, modulo `2^width`.

ghost use Rattle.std.specs.Prelude.{◌≡◌};
ghost use Rattle.xb_bits.specs.Operations as op;

use crate::bits::Bits;
use crate::numbers::{low, mask};

/// The sum of two numbers of one width.
#[tactic(auto, using(crate::proofs::Modulus::mod_mod_128))]
pub fn add(a: Bits, b: Bits) -> Bits
    requires { a.width ≡ b.width }
    ensures { result ≡ op.add a b }
{
    Bits {
        width: a.width,
        value: low(a.width, a.value.wrapping_add(b.value)),
    }
}

/// The difference of two numbers of one width.
#[tactic(auto, using(crate::proofs::Modulus::sub_mod_128))]
pub fn sub(a: Bits, b: Bits) -> Bits
    requires { a.width ≡ b.width }
    ensures { result ≡ op.sub a b }
{
    Bits {
        width: a.width,
        value: low(a.width, a.value.wrapping_sub(b.value)),
    }
}

/// The product of two numbers of one width.
#[tactic(auto, using(crate::proofs::Modulus::mod_mod_128))]
pub fn mul(a: Bits, b: Bits) -> Bits
    requires { a.width ≡ b.width }
    ensures { result ≡ op.mul a b }
{
    Bits {
        width: a.width,
        value: low(a.width, a.value.wrapping_mul(b.value)),
    }
}

/// The quotient of two numbers of one width, rounded down. By 0 it is all ones.
pub fn udiv(a: Bits, b: Bits) -> Bits
    requires { a.width ≡ b.width }
    ensures { result ≡ op.udiv a b }
{
    let value = if b.value == 0 {
        mask(a.width)
    } else {
        a.value / b.value
    };
    Bits {
        width: a.width,
        value,
    }
}

/// The remainder of two numbers of one width. By 0 it is 0.
pub fn umod(a: Bits, b: Bits) -> Bits
    requires { a.width ≡ b.width }
    ensures { result ≡ op.umod a b }
{
    let value = if b.value == 0 { 0 } else { a.value % b.value };
    Bits {
        width: a.width,
        value,
    }
}

/// The number that makes 0 with `a`.
#[tactic(auto, using(crate::proofs::Modulus::sub_mod_128))]
pub fn neg(a: Bits) -> Bits
    ensures { result ≡ op.neg a }
{
    Bits {
        width: a.width,
        value: low(a.width, 0u128.wrapping_sub(a.value)),
    }
}
