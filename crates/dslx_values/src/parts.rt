//! The parts of values, and values made of parts.

ghost use Rattle.std.specs.Prelude.{◌≡◌, IfOk, slice_get};
ghost use Rattle.std.specs.Option.{option_copied};
ghost use Rattle.dslx_meaning.specs.Lists.{index_in};
ghost use Rattle.dslx_meaning.specs.Values.{bits_of as the_bits, based_bits as the_base, unsigned_of as the_amount, elements_of as the_elements, items_of as the_items, bool_value as truth_value, unit_value as the_unit};
ghost use Rattle.dslx_meaning.specs.Meaning.{field_of as the_field};
ghost use Rattle.dslx_meaning.specs.Items.{enum_member as the_member};

use crate::copies::copy_value;
use base::texts::Name;
use dslx_meaning::{DslxValue, SignedWord};
use std::alloc::{AllocError, Global};
use xb_bits::Bits;
use xb_value::Seq;

/// The bits that a value is, which an enum's is not.
pub fn bits_of(value: &DslxValue) -> Option<SignedWord>
    ensures { result ≡ the_bits value.now }
{
    match value {
        DslxValue::Bits(signed, word) => Some(SignedWord {
            signed: *signed,
            word: *word,
        }),
        _ => None,
    }
}

/// The bits that a value is, or those of an enum's value.
pub fn based_bits(value: &DslxValue) -> Option<SignedWord>
    ensures { result ≡ the_base value.now }
{
    match value {
        DslxValue::Bits(signed, word) => Some(SignedWord {
            signed: *signed,
            word: *word,
        }),
        DslxValue::Enum(_, signed, word) => Some(SignedWord {
            signed: *signed,
            word: *word,
        }),
        _ => None,
    }
}

/// The unsigned word that a value is.
pub fn unsigned_of(value: &DslxValue) -> Option<Bits>
    ensures { result ≡ the_amount value.now }
{
    match value {
        DslxValue::Bits(false, word) => Some(*word),
        _ => None,
    }
}

/// The parts of a tuple.
pub fn elements_of(value: &DslxValue) -> Option<&Seq<DslxValue>>
    ensures { option_copied result ≡ the_elements value.now }
{
    match value {
        DslxValue::Tuple(parts) => Some(parts),
        _ => None,
    }
}

/// The parts of a tuple, which is let go.
pub fn into_elements(value: DslxValue) -> Option<Seq<DslxValue>>
    ensures { result ≡ the_elements value }
{
    match value {
        DslxValue::Tuple(parts) => Some(parts),
        _ => None,
    }
}

/// The elements of an array.
pub fn items_of(value: &DslxValue) -> Option<&Seq<DslxValue>>
    ensures { option_copied result ≡ the_items value.now }
{
    match value {
        DslxValue::Array(parts) => Some(parts),
        _ => None,
    }
}

/// The value of the field of this name of a struct, copied. It takes time as the struct has fields and that value is large.
pub fn field_of(
    alloc: Global,
    value: &DslxValue,
    field: &str,
) -> Result<Option<DslxValue>, AllocError>
    ensures { IfOk result (λ v. v ≡ the_field value.now field.now) }
{
    let DslxValue::Struct(_, names, values) = value else {
        return Ok(None);
    };
    match index_of(field, names.as_slice()) {
        Some(place) => value_at(alloc, values.as_slice(), place as u128),
        None => Ok(None),
    }
}

/// The index of the first of the names that is this one.
fn index_of(name: &str, names: &[Name]) -> Option<usize>
    ensures { result ≡ index_in name.now names.now }
{
    'names: for i in 0..names.len() {
        if name == names[i].as_str() {
            return Some(i);
        }
    }
    None
}

/// A copy of the value at an index, if there is one.
pub fn value_at(
    alloc: Global,
    values: &[DslxValue],
    place: u128,
) -> Result<Option<DslxValue>, AllocError>
    ensures { IfOk result (λ v. v ≡ slice_get values.now place) }
{
    if place < values.len() as u128 {
        Ok(Some(copy_value(alloc, &values[place as usize])?))
    } else {
        Ok(None)
    }
}

/// The member of the enum of this name that has these bits.
pub fn enum_member(name: Name, value: &DslxValue) -> Option<DslxValue>
    ensures { result ≡ the_member name value.now }
{
    match value {
        DslxValue::Bits(signed, word) => Some(DslxValue::Enum(name, *signed, *word)),
        _ => None,
    }
}

/// The value of a condition: one bit.
pub fn bool_value(holds: bool) -> DslxValue
    ensures { result ≡ truth_value holds }
{
    if holds {
        DslxValue::Bits(false, Bits::new(1, 1))
    } else {
        DslxValue::Bits(false, Bits::new(1, 0))
    }
}

/// The value of `()`.
pub fn unit_value(alloc: Global) -> DslxValue
    ensures { result ≡ the_unit }
{
    DslxValue::Tuple(Seq::new(alloc))
}
