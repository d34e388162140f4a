//! Copies. Each takes time and memory as what it copies is large.

ghost use Rattle.std.specs.Prelude.{◌≡◌, IfOk};

use base::texts::Name;
use dslx_meaning::{DslxType, DslxValue};
use std::alloc::{AllocError, Global};
use xb_value::{Boxed, Seq};

/// A copy of a name.
pub fn copy_name(alloc: Global, name: &Name) -> Result<Name, AllocError>
    ensures { IfOk result (λ n. n ≡ name.now) }
{
    Ok(Name::from_string(String::from_str(alloc, name.as_str())?))
}

/// A copy of each name.
pub fn copy_names(alloc: Global, names: &[Name]) -> Result<Seq<Name>, AllocError>
    ensures { IfOk result (λ ns. ns ≡ names.now) }
{
    let mut copies = Vec::new(alloc);
    'names: for name in names {
        copies.push(copy_name(alloc, name)?)?;
    }
    Ok(Seq::from_vec(copies))
}

/// A copy of a value.
#[cycle(copy_value)]
pub fn copy_value(alloc: Global, value: &DslxValue) -> Result<DslxValue, AllocError>
    ensures { IfOk result (λ v. v ≡ value.now) }
{
    match value {
        DslxValue::Bits(signed, word) => Ok(DslxValue::Bits(*signed, *word)),
        DslxValue::Tuple(parts) => Ok(DslxValue::Tuple(copy_values(alloc, parts.as_slice())?)),
        DslxValue::Array(parts) => Ok(DslxValue::Array(copy_values(alloc, parts.as_slice())?)),
        DslxValue::Struct(name, fields, parts) => Ok(DslxValue::Struct(
            copy_name(alloc, name)?,
            copy_names(alloc, fields.as_slice())?,
            copy_values(alloc, parts.as_slice())?,
        )),
        DslxValue::Enum(name, signed, word) => {
            Ok(DslxValue::Enum(copy_name(alloc, name)?, *signed, *word))
        }
        DslxValue::Token => Ok(DslxValue::Token),
    }
}

/// A copy of each value.
#[cycle(copy_value)]
pub fn copy_values(alloc: Global, values: &[DslxValue]) -> Result<Seq<DslxValue>, AllocError>
    ensures { IfOk result (λ vs. vs ≡ values.now) }
{
    let mut copies = Vec::new(alloc);
    'values: for value in values {
        copies.push(copy_value(alloc, value)?)?;
    }
    Ok(Seq::from_vec(copies))
}

/// A copy of a type.
#[cycle(copy_type)]
pub fn copy_type(alloc: Global, ty: &DslxType) -> Result<DslxType, AllocError>
    ensures { IfOk result (λ t. t ≡ ty.now) }
{
    match ty {
        DslxType::Bits(signed, width) => Ok(DslxType::Bits(*signed, *width)),
        DslxType::Tuple(parts) => Ok(DslxType::Tuple(copy_types(alloc, parts.as_slice())?)),
        DslxType::Array(part, count) => Ok(DslxType::Array(
            Boxed::new(alloc, copy_type(alloc, part.get())?)?,
            *count,
        )),
        DslxType::Struct(name, fields, parts) => Ok(DslxType::Struct(
            copy_name(alloc, name)?,
            copy_names(alloc, fields.as_slice())?,
            copy_types(alloc, parts.as_slice())?,
        )),
        DslxType::Enum(name, signed, width) => {
            Ok(DslxType::Enum(copy_name(alloc, name)?, *signed, *width))
        }
        DslxType::Token => Ok(DslxType::Token),
    }
}

/// A copy of each type.
#[cycle(copy_type)]
pub fn copy_types(alloc: Global, types: &[DslxType]) -> Result<Seq<DslxType>, AllocError>
    ensures { IfOk result (λ ts. ts ≡ types.now) }
{
    let mut copies = Vec::new(alloc);
    'types: for ty in types {
        copies.push(copy_type(alloc, ty)?)?;
    }
    Ok(Seq::from_vec(copies))
}
