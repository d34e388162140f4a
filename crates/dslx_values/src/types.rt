//! The types of values, and the bits that a type is.

ghost use Rattle.std.specs.Prelude.{◌≡◌, IfOk, map};
ghost use Rattle.dslx_meaning.specs.Types.{bits_in as kind_of, bits_or_enum as base_of_type};
ghost use Rattle.dslx_meaning.specs.Values.{type_of_value as the_type, array_type as type_of_elements};

use crate::copies::{copy_name, copy_names};
use dslx_meaning::{BitKind, DslxType, DslxValue};
use std::alloc::{AllocError, Global};
use xb_value::{Boxed, Seq};

/// The one type that a value has. Of an array that has no elements it is that of `()`. It takes time as the value is large.
#[cycle(type_of_value)]
pub fn type_of_value(alloc: Global, value: &DslxValue) -> Result<DslxType, AllocError>
    ensures { IfOk result (λ t. t ≡ the_type value.now) }
{
    match value {
        DslxValue::Bits(signed, word) => Ok(DslxType::Bits(*signed, u128::from(word.width()))),
        DslxValue::Tuple(parts) => Ok(DslxType::Tuple(types_of_values(alloc, parts.as_slice())?)),
        DslxValue::Array(parts) => array_type(alloc, parts.as_slice()),
        DslxValue::Struct(name, fields, parts) => Ok(DslxType::Struct(
            copy_name(alloc, name)?,
            copy_names(alloc, fields.as_slice())?,
            types_of_values(alloc, parts.as_slice())?,
        )),
        DslxValue::Enum(name, signed, word) => Ok(DslxType::Enum(
            copy_name(alloc, name)?,
            *signed,
            u128::from(word.width()),
        )),
        DslxValue::Token => Ok(DslxType::Token),
    }
}

/// The type of an array of these elements.
#[cycle(type_of_value)]
fn array_type(alloc: Global, elements: &[DslxValue]) -> Result<DslxType, AllocError>
    ensures { IfOk result (λ t. t ≡ type_of_elements (map the_type elements.now)) }
{
    match elements {
        [] => Ok(DslxType::Tuple(Seq::new(alloc))),
        [first, ..] => Ok(DslxType::Array(
            Boxed::new(alloc, type_of_value(alloc, first)?)?,
            elements.len() as u128,
        )),
    }
}

/// The type of each.
#[cycle(type_of_value)]
fn types_of_values(alloc: Global, values: &[DslxValue]) -> Result<Seq<DslxType>, AllocError>
    ensures { IfOk result (λ ts. ts ≡ map the_type values.now) }
{
    let mut types = Vec::new(alloc);
    'values: for value in values {
        types.push(type_of_value(alloc, value)?)?;
    }
    Ok(Seq::from_vec(types))
}

/// The sign and the width of bits, which an enum is not.
pub fn bits_in(ty: &DslxType) -> Option<BitKind>
    ensures { result ≡ kind_of ty.now }
{
    match ty {
        DslxType::Bits(signed, width) => Some(BitKind {
            signed: *signed,
            width: *width,
        }),
        _ => None,
    }
}

/// The sign and the width of bits, or of the base of an enum.
pub fn bits_or_enum(ty: &DslxType) -> Option<BitKind>
    ensures { result ≡ base_of_type ty.now }
{
    match ty {
        DslxType::Bits(signed, width) => Some(BitKind {
            signed: *signed,
            width: *width,
        }),
        DslxType::Enum(_, signed, width) => Some(BitKind {
            signed: *signed,
            width: *width,
        }),
        _ => None,
    }
}
