//! Casts and slices of bits.

ghost use Rattle.std.specs.Prelude.{◌≡◌, ◌≤◌, MatchResult, false, Some};
ghost use Rattle.dslx_meaning.specs.Operators.{cast_value as the_cast, cast_to as cast_to_kind, cast_word as the_cast_word, slice_value as the_slice, slice_word as the_slice_word, part_value as the_part};
ghost use Rattle.dslx_values.specs.Operators.Widths.{is_held};

use crate::operators::width::{WidthOutOfRange, word_width};
use crate::{based_bits, bits_in, bits_of, unsigned_of};
use dslx_meaning::{BitKind, DslxType, DslxValue, SignedWord};
use xb_bits::{Bits, dyn_slice, sext, slice, zext};

/// A value as bits of a type: high bits are cut off, and new ones are copies of the value's own sign where it is signed.
pub fn cast_value(ty: &DslxType, value: &DslxValue) -> Result<Option<DslxValue>, WidthOutOfRange>
    ensures { MatchResult result (λ v. v ≡ the_cast ty.now value.now) (λ e. is_held (the_cast ty.now value.now) ≡ false) }
{
    match (based_bits(value), bits_in(ty)) {
        (Some(x), Some(kind)) => cast_to(kind, &x),
        _ => Ok(None),
    }
}

#[tactic(auto, using(crate::proofs::OnOperators::Helds::bits_held, crate::proofs::OnOperators::Helds::cast_width))]
fn cast_to(kind: BitKind, x: &SignedWord) -> Result<Option<DslxValue>, WidthOutOfRange>
    ensures { MatchResult result (λ v. v ≡ cast_to_kind (Some kind) x.now) (λ e. is_held (cast_to_kind (Some kind) x.now) ≡ false) }
{
    match word_width(kind.width) {
        Some(width) => Ok(Some(DslxValue::Bits(kind.signed, cast_word(x.signed, width, x.word)))),
        None => Err(WidthOutOfRange),
    }
}

fn cast_word(signed: bool, width: u8, word: Bits) -> Bits
    requires some_width { 1 ≤ width }
    requires most_width { width ≤ 128 }
    ensures { result ≡ the_cast_word signed width word }
{
    if width <= word.width() {
        slice(word, 0, width)
    } else if signed {
        sext(word, width)
    } else {
        zext(word, width)
    }
}

/// Bits `from` to `to - 1` of a value, if there are such bits.
pub fn slice_value(value: &DslxValue, from: u128, to: u128) -> Option<DslxValue>
    ensures { result ≡ the_slice value.now from to }
{
    match bits_of(value) {
        Some(x) => slice_word(from, to, &x),
        None => None,
    }
}

fn slice_word(from: u128, to: u128, x: &SignedWord) -> Option<DslxValue>
    ensures { result ≡ the_slice_word from to x.now }
{
    if from < to && to <= u128::from(x.word.width()) {
        let word = slice(x.word, from as u8, (to - from) as u8);
        Some(DslxValue::Bits(false, word))
    } else {
        None
    }
}

/// So many bits of a value from a start on: past the end they are 0.
#[tactic(auto, using(crate::proofs::OnOperators::Helds::bits_held))]
pub fn part_value(
    value: &DslxValue,
    start: &DslxValue,
    width: u128,
) -> Result<Option<DslxValue>, WidthOutOfRange>
    ensures { MatchResult result (λ v. v ≡ the_part value.now start.now width) (λ e. is_held (the_part value.now start.now width) ≡ false) }
{
    match (bits_of(value), unsigned_of(start)) {
        (Some(x), Some(from)) => match word_width(width) {
            Some(width) => Ok(Some(DslxValue::Bits(false, dyn_slice(x.word, from, width)))),
            None => Err(WidthOutOfRange),
        },
        _ => Ok(None),
    }
}
