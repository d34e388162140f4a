//! Numbers that are written with a type.

ghost use Rattle.std.specs.Prelude.{◌≡◌, ◌<◌, ◌^◌, ◌-◌, nat_lt, nat_le, MatchResult, false};
ghost use Rattle.dslx_meaning.specs.Operators.{number_value as the_number, number_in as number_of_kind, word_in_range as the_word, negative_word as word_below, positive_word as word_above};
ghost use Rattle.dslx_values.specs.Operators.Widths.{is_held, is_held_word};
ghost use Rattle.dslx_values.specs.Operators.Inner.Ranges.{digits_of, is_small_below};

use crate::bits_in;
use crate::operators::width::{WidthOutOfRange, word_width};
use dslx_meaning::{BitKind, DslxType, DslxValue, UntypedLiteral};
use xb_bits::{Bits, neg};

/// A number with its type, if that is bits and the number lies in their range.
pub fn number_value(
    ty: &DslxType,
    number: UntypedLiteral,
) -> Result<Option<DslxValue>, WidthOutOfRange>
    ensures { MatchResult result (λ v. v ≡ the_number ty.now number) (λ e. is_held (the_number ty.now number) ≡ false) }
{
    match bits_in(ty) {
        Some(kind) => number_in(kind, number),
        None => Ok(None),
    }
}

/// A number as bits of this kind, if it lies in their range.
#[tactic(auto, using(crate::proofs::OnOperators::Helds::word_held))]
fn number_in(kind: BitKind, number: UntypedLiteral) -> Result<Option<DslxValue>, WidthOutOfRange>
    ensures { MatchResult result (λ v. v ≡ number_of_kind (Some kind) number) (λ e. is_held (number_of_kind (Some kind) number) ≡ false) }
{
    match word_in_range(kind, number) {
        Ok(Some(word)) => Ok(Some(DslxValue::Bits(kind.signed, word))),
        Ok(None) => Ok(None),
        Err(odd) => Err(odd),
    }
}

/// The word of a number in bits of this kind, if it lies in their range.
fn word_in_range(kind: BitKind, number: UntypedLiteral) -> Result<Option<Bits>, WidthOutOfRange>
    ensures { MatchResult result (λ w. w ≡ the_word kind number) (λ e. is_held_word (the_word kind number) ≡ false) }
{
    if number.is_negative {
        negative_word(kind.signed, kind.width, number.value)
    } else {
        positive_word(kind.signed, kind.width, number.value)
    }
}

#[tactic(auto, using(crate::proofs::OnOperators::RangeLemmas::positive_by_digits, crate::proofs::OnOperators::RangeLemmas::fits_by_digits))]
fn positive_word(signed: bool, width: u128, value: u128) -> Result<Option<Bits>, WidthOutOfRange>
    ensures { MatchResult result (λ w. w ≡ word_above signed width value) (λ e. is_held_word (word_above signed width value) ≡ false) }
{
    if !is_below_power(value, digits(signed, width)) {
        return Ok(None);
    }
    match word_width(width) {
        Some(width) => Ok(Some(Bits::new(width, value))),
        None => Err(WidthOutOfRange),
    }
}

/// The word of the number that makes 0 with a value.
#[tactic(auto, using(crate::proofs::OnOperators::RangeLemmas::negative_by_smallness, crate::proofs::OnOperators::RangeLemmas::fits_by_smallness))]
fn negative_word(signed: bool, width: u128, value: u128) -> Result<Option<Bits>, WidthOutOfRange>
    ensures { MatchResult result (λ w. w ≡ word_below signed width value) (λ e. is_held_word (word_below signed width value) ≡ false) }
{
    if !is_small(signed, width, value) {
        return Ok(None);
    }
    match word_width(width) {
        Some(width) => Ok(Some(neg(Bits::new(width, value)))),
        None => Err(WidthOutOfRange),
    }
}

/// How many digits of 0 and 1 so many bits leave to a number that is not negative.
fn digits(signed: bool, width: u128) -> u128
    ensures { result ≡ digits_of signed width }
{
    if signed {
        width.saturating_sub(1)
    } else {
        width
    }
}

/// Whether the number that makes 0 with a value lies in the range of bits.
fn is_small(signed: bool, width: u128, value: u128) -> bool
    ensures { result ≡ is_small_below signed width value }
{
    value == 0 || (signed && is_below_power(value - 1, width.saturating_sub(1)))
}

/// Whether a number has at most so many digits of 0 and 1.
fn is_below_power(number: u128, digits: u128) -> bool
    ensures { result ≡ nat_lt number (2 ^ digits) }
{
    digits >= 128 || number < 1u128 << digits
}
