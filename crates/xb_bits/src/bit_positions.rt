//! Bits by their positions.

ghost use Rattle.std.specs.Prelude.{◌≡◌, ◌≤◌, ◌<◌, ◌-◌, ◌^◌, ℕ};
ghost use Rattle.std.specs.Int.{bit_at};
ghost use Rattle.xb_bits.specs.Operations as op;
ghost use Rattle.xb_bits.specs.BitPositions.{leading_zero_count, trailing_zero_count, reversed_bits};

use crate::bits::Bits;

/// How many bits stand above the highest 1: all of them in 0.
#[tactic(auto, using(crate::proofs::BitLemmas::self_below_pow))]
pub fn clz(a: Bits) -> Bits
    ensures value { result ≡ op.clz a }
    ensures above { (i : ℕ) → a.width - result.value ≤ i → bit_at a.value i ≡ 0 }
    ensures highest { result.value < a.width → bit_at a.value (a.width - 1 - result.value) ≡ 1 }
{
    Bits {
        width: a.width,
        value: u128::from(leading_zeros(a.width, a.value)),
    }
}

/// How many bits stand below the lowest 1: all of them in 0.
#[tactic(auto, using(crate::proofs::BitLemmas::self_below_pow))]
pub fn ctz(a: Bits) -> Bits
    ensures value { result ≡ op.ctz a }
    ensures below { (i : ℕ) → i < result.value → bit_at a.value i ≡ 0 }
    ensures lowest { result.value < a.width → bit_at a.value result.value ≡ 1 }
{
    Bits {
        width: a.width,
        value: u128::from(trailing_zeros(a.width, a.value)),
    }
}

/// How many of `width` bits stand above the highest 1.
fn leading_zeros(width: u8, number: u128) -> u32
    requires most_width { width ≤ 128 }
    requires in_range { number < 2 ^ width }
    ensures value { result ≡ leading_zero_count width number }
    ensures within { result ≤ width }
    ensures above { (i : ℕ) → width - result ≤ i → bit_at number i ≡ 0 }
    ensures highest { result < width → bit_at number (width - 1 - result) ≡ 1 }
{
    number.leading_zeros() - (128 - u32::from(width))
}

/// How many of `width` bits stand below the lowest 1.
fn trailing_zeros(width: u8, number: u128) -> u32
    requires most_width { width ≤ 128 }
    requires in_range { number < 2 ^ width }
    ensures value { result ≡ trailing_zero_count width number }
    ensures within { result ≤ width }
    ensures below { (i : ℕ) → i < result → bit_at number i ≡ 0 }
    ensures lowest { result < width → bit_at number result ≡ 1 }
{
    if number == 0 {
        u32::from(width)
    } else {
        number.trailing_zeros()
    }
}

/// The bits in the other order: the lowest is the highest.
pub fn rev(a: Bits) -> Bits
    ensures value { result ≡ op.rev a }
    ensures bit_positions { (i : ℕ) → i < a.width → bit_at result.value i ≡ bit_at a.value (a.width - 1 - i) }
{
    Bits {
        width: a.width,
        value: reversed(a.width, a.value),
    }
}

/// The low `width` bits in the other order.
fn reversed(width: u8, number: u128) -> u128
    requires { width ≤ 128 }
    ensures { result ≡ reversed_bits width number }
{
    let mut bits = 0u128;
    let mut rest = number;
    'bit_positions: for _ in 0..width {
        bits = bits * 2 + rest % 2;
        rest /= 2;
    }
    bits
}
