ghost use Rattle.std.specs.Prelude.{◌≡◌, ◌<◌, ◌+◌, ◌&&◌, ℕ, nat_lt, nat_le, min, pred, length, slice_get, set, IfOk, if◌then◌else◌};
ghost use Rattle.std.specs.Option.{option_map};
ghost use Rattle.xb_bits.specs.Operations.{slice as slice_word, dyn_slice as dyn_slice_word};
ghost use Rattle.xb_value.specs.declared.value.Value.{Bits as of_bits, Array as of_array, out-Value};
ghost use Rattle.dslx_meaning.specs.Lists.{and_then, with_both, where_true};
ghost use Rattle.dslx_meaning.specs.Operators.{cast_word};
ghost use Rattle.dslx_core.specs.CoreValues.{word_of_value, array_values_step, tuple_values_step, unary_word, binary_words, is_signed_read, is_width as is_word_width, is_one};

use crate::operate::words::{binary, cast, unary};
use dslx_core::{CoreBinary, CoreUnary, Sign};
use std::alloc::{AllocError, Global};
use xb_bits::{Bits, dyn_slice, slice};
use xb_value::Value;

/// The word that a value is.
pub fn word_of(value: &Option<Value>) -> Option<Bits>
    ensures { result ≡ and_then value.now word_of_value }
{
    match value {
        Some(value) => word_of_one(value),
        None => None,
    }
}

/// The word that a value is.
pub(crate) fn word_of_one(value: &Value) -> Option<Bits>
    ensures { result ≡ word_of_value value.now }
{
    match value {
        Value::Bits(word) => Some(*word),
        _ => None,
    }
}

/// The word that the value of this number is.
pub(crate) fn word_of_slot(values: &[Value], number: u64) -> Option<Bits>
    ensures { result ≡ and_then (slice_get values.now number) word_of_value }
{
    match values.get(number as usize) {
        Some(value) => word_of_one(value),
        None => None,
    }
}

/// What an operation gives for a word.
pub(crate) fn unary_given(op: CoreUnary, word: Option<Bits>) -> Option<Value>
    ensures { result ≡ and_then word (λ w. Some (of_bits (unary_word op w))) }
{
    match word {
        Some(word) => Some(Value::Bits(unary(op, word))),
        None => None,
    }
}

/// What an operation gives for two words.
pub(crate) fn binary_given(op: CoreBinary, left: Option<Bits>, right: Option<Bits>) -> Option<Value>
    ensures { result ≡ with_both left right (binary_words op) }
{
    match (left, right) {
        (Some(x), Some(y)) => match binary(op, x, y) {
            Some(word) => Some(Value::Bits(word)),
            None => None,
        },
        _ => None,
    }
}

/// The same as a word.
pub(crate) fn binary_word_given(
    op: CoreBinary,
    left: Option<Bits>,
    right: Option<Bits>,
) -> Option<Bits>
    ensures { option_map of_bits result ≡ with_both left right (binary_words op) }
{
    match (left, right) {
        (Some(x), Some(y)) => binary(op, x, y),
        _ => None,
    }
}

/// A word cut off or made longer to so many bits.
pub(crate) fn cast_given(sign: Sign, width: u8, word: Option<Bits>) -> Option<Value>
    ensures { result ≡ and_then word (λ x. where_true (is_word_width width) (Some (of_bits (cast_word (is_signed_read sign) width x)))) }
{
    match word {
        Some(word) => if is_width(width) {
            Some(Value::Bits(cast(sign, width, word)))
        } else {
            None
        },
        None => None,
    }
}

/// The same as a word.
pub(crate) fn cast_word_given(sign: Sign, width: u8, word: Option<Bits>) -> Option<Bits>
    ensures { option_map of_bits result ≡ and_then word (λ x. where_true (is_word_width width) (Some (of_bits (cast_word (is_signed_read sign) width x)))) }
{
    match word {
        Some(word) => if is_width(width) {
            Some(cast(sign, width, word))
        } else {
            None
        },
        None => None,
    }
}

/// Whether a word of one bit is 1.
pub(crate) fn is_one_given(word: Option<Bits>) -> Option<bool>
    ensures { result ≡ and_then word is_one }
{
    match word {
        Some(word) => if word.width() == 1 {
            Some(word.value() == 1)
        } else {
            None
        },
        None => None,
    }
}

/// What an operation gives for the word that a value is.
pub fn unary_value(op: CoreUnary, value: &Option<Value>) -> Option<Value>
    ensures { result ≡ and_then (and_then value.now word_of_value) (λ w. Some (of_bits (unary_word op w))) }
{
    unary_given(op, word_of(value))
}

/// What an operation gives for the words that two values are.
pub fn binary_value(op: CoreBinary, left: &Option<Value>, right: &Option<Value>) -> Option<Value>
    ensures { result ≡ with_both (and_then left.now word_of_value) (and_then right.now word_of_value) (binary_words op) }
{
    binary_given(op, word_of(left), word_of(right))
}

/// The word that a value is, cut off or made longer to so many bits.
pub fn cast_value(sign: Sign, width: u8, value: &Option<Value>) -> Option<Value>
    ensures { result ≡ and_then (and_then value.now word_of_value)
        (λ x. where_true (is_word_width width) (Some (of_bits (cast_word (is_signed_read sign) width x)))) }
{
    cast_given(sign, width, word_of(value))
}

/// So many bits of the word that a value is, from this one on.
pub fn slice_value(value: &Option<Value>, from: u8, width: u8) -> Option<Value>
    ensures { result ≡ and_then (and_then value.now word_of_value)
        (λ x. where_true (nat_lt 0 width && nat_le (from + width) x.width) (Some (of_bits (slice_word x from width)))) }
{
    match word_of(value) {
        Some(word) => if lies_within(from, width, word) {
            Some(Value::Bits(slice(word, from, width)))
        } else {
            None
        },
        None => None,
    }
}

/// So many bits of the word that a value is, from the bit on that another one is.
pub fn part_value(value: &Option<Value>, start: &Option<Value>, width: u8) -> Option<Value>
    ensures { result ≡ with_both (and_then value.now word_of_value) (and_then start.now word_of_value)
        (λ x k. where_true (is_word_width width) (Some (of_bits (dyn_slice_word x k width)))) }
{
    match (word_of(value), word_of(start)) {
        (Some(x), Some(k)) => if is_width(width) {
            Some(Value::Bits(dyn_slice(x, k, width)))
        } else {
            None
        },
        _ => None,
    }
}

/// Whether the word of one bit that a value is is 1.
pub fn condition(value: &Option<Value>) -> Option<bool>
    ensures { result ≡ and_then (and_then value.now word_of_value) is_one }
{
    is_one_given(word_of(value))
}

/// The value at an index, if there is one.
pub fn value_at(alloc: Global, values: &[Value], place: u64) -> Result<Option<Value>, AllocError>
    ensures { IfOk result (λ v. v ≡ slice_get values.now place) }
{
    match values.get(place as usize) {
        Some(value) => Ok(Some(value.copy(alloc)?)),
        None => Ok(None),
    }
}

/// The part of a tuple of this number.
pub fn element(
    alloc: Global,
    value: &Option<Value>,
    number: u64,
) -> Result<Option<Value>, AllocError>
    ensures { IfOk result (λ v. v ≡ and_then (and_then value.now (λ v. tuple_values_step (out-Value v))) (λ vs. slice_get vs number)) }
{
    match value {
        Some(Value::Tuple(parts)) => value_at(alloc, parts.as_slice(), number),
        _ => Ok(None),
    }
}

/// The element of an array at the index that a word is, the last one where the index is past the end.
pub fn indexed(
    alloc: Global,
    array: &Option<Value>,
    place: &Option<Value>,
) -> Result<Option<Value>, AllocError>
    ensures { IfOk result (λ v. v ≡ with_both (and_then array.now (λ v. array_values_step (out-Value v))) (and_then place.now word_of_value)
        (λ vs k. slice_get vs (min k.value (pred (length vs))))) }
{
    match (array, word_of(place)) {
        (Some(Value::Array(elements)), Some(word)) => {
            value_at(alloc, elements.as_slice(), place_of(word, elements.len()))
        }
        _ => Ok(None),
    }
}

/// The array with another value at the index that a word is; past the end it stays as it is.
pub fn updated(array: Option<Value>, place: &Option<Value>, new: Option<Value>) -> Option<Value>
    ensures { result ≡ and_then new (λ new. with_both (and_then array (λ v. array_values_step (out-Value v))) (and_then place.now word_of_value)
        (λ vs k. Some (of_array (if nat_lt k.value (length vs) then set vs k.value new else vs)))) }
{
    match (array, word_of(place), new) {
        (Some(Value::Array(mut elements)), Some(word), Some(new)) => {
            if word.value() < elements.len() as u128 {
                elements.set(word.value() as usize, new);
            }
            Some(Value::Array(elements))
        }
        _ => None,
    }
}

/// The index that a word is, or the last one of so many where it is past them.
pub(crate) fn place_of(word: Bits, count: usize) -> u64
    ensures { result ≡ min word.value (pred count) }
{
    let last = count.saturating_sub(1);
    if word.value() < last as u128 {
        word.value() as u64
    } else {
        last as u64
    }
}

/// Whether a word may have so many bits.
fn is_width(width: u8) -> bool
    ensures { result ≡ is_word_width width }
{
    0 < width && width <= 128
}

/// Whether so many bits from this one on are there.
fn lies_within(from: u8, width: u8, word: Bits) -> bool
    ensures { result ≡ (nat_lt 0 width && nat_le (from + width) word.width) }
{
    let end = u16::from(from) + u16::from(width);
    0 < width && end <= u16::from(word.width())
}
