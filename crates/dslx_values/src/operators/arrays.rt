//! Elements of arrays and of tuples.

ghost use Rattle.std.specs.Prelude.{◌≡◌, IfOk, MatchOption, ◌≢◌, [], ◌∷◌, length, min, pred};
ghost use Rattle.dslx_meaning.specs.Operators.{index_value as the_element, element_value as the_part, update_value as the_update, updated as the_builtin};

use crate::{unsigned_of, value_at};
use dslx_meaning::DslxValue;
use std::alloc::{AllocError, Global};
use xb_bits::Bits;
use xb_value::Seq;

/// The element of an array at an index, copied: the last one where the index is past the end.
pub fn index_value(
    alloc: Global,
    value: &DslxValue,
    index: &DslxValue,
) -> Result<Option<DslxValue>, AllocError>
    ensures { IfOk result (λ v. v ≡ the_element value.now index.now) }
{
    match (value, unsigned_of(index)) {
        (DslxValue::Array(elements), Some(word)) => {
            value_at(alloc, elements.as_slice(), index_of(word, elements.len()))
        }
        _ => Ok(None),
    }
}

/// The index that a word is, or the last one of so many where it is past them.
fn index_of(word: Bits, count: usize) -> u128
    ensures { result ≡ min word.value (pred count) }
{
    let last = count.saturating_sub(1) as u128;
    if word.value() < last {
        word.value()
    } else {
        last
    }
}

/// The part of a tuple of this number, copied, if there is one.
pub fn element_value(
    alloc: Global,
    value: &DslxValue,
    number: u128,
) -> Result<Option<DslxValue>, AllocError>
    ensures { IfOk result (λ v. v ≡ the_part value.now number) }
{
    match value {
        DslxValue::Tuple(parts) => value_at(alloc, parts.as_slice(), number),
        _ => Ok(None),
    }
}

/// The array with another value at an index; past the end it stays as it is.
pub fn update_value(value: DslxValue, index: &DslxValue, new: DslxValue) -> Option<DslxValue>
    ensures { result ≡ the_update value index.now new }
{
    match (value, unsigned_of(index)) {
        (DslxValue::Array(mut elements), Some(word)) => {
            if word.value() < elements.len() as u128 {
                elements.set(word.value() as usize, new);
            }
            Some(DslxValue::Array(elements))
        }
        _ => None,
    }
}

/// The same of an array, an index and a value, if there are these three.
pub fn updated(arguments: Seq<DslxValue>) -> Option<DslxValue>
    ensures { result ≡ the_builtin arguments }
{
    match three_of(arguments) {
        Some((array, index, new)) => update_value(array, &index, new),
        None => None,
    }
}

/// The values, if they are three.
fn three_of(mut values: Seq<DslxValue>) -> Option<(DslxValue, DslxValue, DslxValue)>
    ensures { MatchOption result (length values ≢ 3) (λ three. values ≡ three.0 ∷ three.1 ∷ three.2 ∷ []) }
{
    if values.len() != 3 {
        return None;
    }
    match (values.pop(), values.pop(), values.pop()) {
        (Some(third), Some(second), Some(first)) => Some((first, second, third)),
        _ => None,
    }
}
