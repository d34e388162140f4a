//! Shifts by an amount of any width. From an amount of the width on, all bits are shifted out.

ghost use Rattle.std.specs.Prelude.{◌≡◌, ◌≤◌, ◌<◌, ◌^◌};
ghost use Rattle.xb_bits.specs.Operations as op;
ghost use Rattle.xb_bits.specs.Shift.{shifted_left};

use crate::bits::Bits;
use crate::numbers::{is_negative, low, mask, without_low};

/// Shifts to the left: zeros come in.
pub fn shll(a: Bits, amount: Bits) -> Bits
    ensures { result ≡ op.shll a amount }
{
    Bits {
        width: a.width,
        value: left(a.width, a.value, amount.value),
    }
}

/// Shifts to the right: zeros come in.
pub fn shrl(a: Bits, amount: Bits) -> Bits
    ensures { result ≡ op.shrl a amount }
{
    Bits {
        width: a.width,
        value: without_low(a.width, a.value, amount.value),
    }
}

/// Shifts a signed number to the right: copies of the sign come in.
pub fn shra(a: Bits, amount: Bits) -> Bits
    ensures { result ≡ op.shra a amount }
{
    let value = if is_negative(a.width, a.value) {
        let ones = mask(a.width);
        ones - without_low(a.width, ones - a.value, amount.value)
    } else {
        without_low(a.width, a.value, amount.value)
    };
    Bits {
        width: a.width,
        value,
    }
}

/// `width` bits shifted to the left.
#[tactic(auto, using(crate::proofs::Modulus::mod_mod_128, crate::proofs::Modulus::shifted_out))]
fn left(width: u8, number: u128, amount: u128) -> u128
    requires { width ≤ 128 }
    ensures value { result ≡ shifted_left width number amount }
    ensures in_range { result < 2 ^ width }
{
    if amount < u128::from(width) {
        low(width, number << amount)
    } else {
        0
    }
}
