//! What the operations share, on plain numbers.

ghost use Rattle.std.specs.Prelude.{◌≡◌, ◌↔◌, ◌≤◌, ◌<◌, ◌^◌, ◌-◌, ◌%◌, ◌/◌, min, IsTrue};

/// The number of `width` ones.
#[tactic(auto, using(crate::proofs::Modulus::ones_shr_128))]
pub fn mask(width: u8) -> u128
    requires { width ≤ 128 }
    ensures { result ≡ 2 ^ width - 1 }
{
    if width == 0 {
        0
    } else {
        u128::MAX >> (128 - width)
    }
}

/// The low `width` bits.
#[tactic(auto, using(std::proofs::lemmas::Nat::and_mask))]
pub fn low(width: u8, number: u128) -> u128
    requires { width ≤ 128 }
    ensures value { result ≡ number % 2 ^ width }
    ensures in_range { result < 2 ^ width }
{
    number & mask(width)
}

/// A number of `width` bits without its low `amount` bits.
pub fn without_low(width: u8, number: u128, amount: u128) -> u128
    requires width { width ≤ 128 }
    requires in_range { number < 2 ^ width }
    ensures { result ≡ number / 2 ^ min amount width }
{
    if amount < u128::from(width) {
        number >> amount
    } else {
        0
    }
}

/// Whether the highest of the `width` bits is 1.
#[tactic(auto, using(crate::proofs::Modulus::double_pow))]
pub fn is_negative(width: u8, number: u128) -> bool
    requires some_width { 1 ≤ width }
    requires most_width { width ≤ 128 }
    ensures { IsTrue result ↔ (2 ^ (width - 1) ≤ number) }
{
    mask(width - 1) < number
}
