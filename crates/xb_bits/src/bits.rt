ghost use Rattle.std.specs.Prelude.{◌≡◌, ◌<◌, ◌≤◌, ◌^◌};
ghost use Rattle.xb_bits.specs.Word.{word, IsWord};

use std::marker::Model;

/// A number of `width` bits: 1 to 128 bits, and the number is below `2^width`.
///
/// Contracts see it as the pair of the two, a `Word`.
#[derive(Clone, Copy, Debug, PartialEq, Eq, Hash)]
pub struct Bits {
    pub width: u8,
    pub value: u128,
}

impl Model for Bits {
    ghost use Rattle.xb_bits.specs.Word.{Word, word, IsWord};

    ghost Value = { Word };

    ghost view = { λ b. word b.width b.value };

    ghost invariant = { λ b. IsWord (word b.width b.value) };

    ghost inverse = { λ x. record { width = x.width; value = x.value } };
}

impl Bits {
    /// The number `value` of `width` bits.
    pub fn new(width: u8, value: u128) -> Bits
        requires some_width { 1 ≤ width }
        requires most_width { width ≤ 128 }
        requires in_range { value < 2 ^ width }
        ensures { result ≡ word width value }
    {
        Bits { width, value }
    }

    /// How many bits it has.
    pub fn width(self) -> u8
        ensures width { result ≡ self.width }
        ensures is_word { IsWord self }
    {
        self.width
    }

    /// The number.
    pub fn value(self) -> u128
        ensures value { result ≡ self.value }
        ensures is_word { IsWord self }
    {
        self.value
    }
}
