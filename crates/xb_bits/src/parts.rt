//! Numbers side by side, parts of a number, and numbers made longer.

ghost use Rattle.std.specs.Prelude.{◌≡◌, ◌+◌, ◌≤◌};
ghost use Rattle.xb_bits.specs.Operations as op;

use crate::bits::Bits;
use crate::numbers::{is_negative, low, mask, without_low};

/// `a` above `b`.
pub fn concat(a: Bits, b: Bits) -> Bits
    requires { a.width + b.width ≤ 128 }
    ensures { result ≡ op.concat a b }
{
    Bits {
        width: a.width + b.width,
        value: (a.value << b.width) | b.value,
    }
}

/// `width` bits from bit `start` on, all of them bits of `x`.
pub fn slice(x: Bits, start: u8, width: u8) -> Bits
    requires some_width { 1 ≤ width }
    requires within { start + width ≤ x.width }
    ensures { result ≡ op.slice x start width }
{
    Bits {
        width,
        value: low(width, x.value >> start),
    }
}

/// `width` bits from bit `start` on. Bits past the end read 0.
pub fn dyn_slice(x: Bits, start: Bits, width: u8) -> Bits
    requires some_width { 1 ≤ width }
    requires most_width { width ≤ 128 }
    ensures { result ≡ op.dyn_slice x start width }
{
    Bits {
        width,
        value: low(width, without_low(x.width, x.value, start.value)),
    }
}

/// The same number in as many bits or more.
#[tactic(auto, using(crate::proofs::Modulus::pow_le_pow))]
pub fn zext(x: Bits, width: u8) -> Bits
    requires longer { x.width ≤ width }
    requires most_width { width ≤ 128 }
    ensures { result ≡ op.zext x width }
{
    Bits {
        width,
        value: x.value,
    }
}

/// The same signed value in as many bits or more.
#[tactic(auto, using(crate::proofs::Modulus::pow_le_pow))]
pub fn sext(x: Bits, width: u8) -> Bits
    requires longer { x.width ≤ width }
    requires most_width { width ≤ 128 }
    ensures { result ≡ op.sext x width }
{
    let value = if is_negative(x.width, x.value) {
        mask(width) - (mask(x.width) - x.value)
    } else {
        x.value
    };
    Bits { width, value }
}
