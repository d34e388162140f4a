//! Types without signs and names.

ghost use Rattle.std.specs.Prelude.{◌≡◌, map, IfOk};
ghost use Rattle.dslx_meaning.specs.Types.{plain_type as the_plain_type};
ghost use Rattle.xb_value.specs.declared.ty.Ty.{Array as array_of, Bits as bits_of};

use dslx_meaning::DslxType;
use std::alloc::{AllocError, Global};
use xb_value::{Boxed, Seq, Ty};

/// A type without signs and names: a struct is a tuple, an enum is bits, and a token is `()`. It takes time and memory as the type is
/// large. A width or a size of 2^64 or more is answered as for want of memory.
#[cycle(plain_type)]
pub fn plain_type(alloc: Global, ty: &DslxType) -> Result<Ty, AllocError>
    ensures { IfOk result (λ t. t ≡ the_plain_type ty.now) }
{
    match ty {
        DslxType::Bits(_, width) => plain_bits(*width),
        DslxType::Tuple(parts) => Ok(Ty::Tuple(plain_types(alloc, parts.as_slice())?)),
        DslxType::Array(part, count) => plain_array(alloc, plain_type(alloc, part.get())?, *count),
        DslxType::Struct(_, _, parts) => Ok(Ty::Tuple(plain_types(alloc, parts.as_slice())?)),
        DslxType::Enum(_, _, width) => plain_bits(*width),
        DslxType::Token => Ok(Ty::Tuple(Seq::new(alloc))),
    }
}

/// The same of each type.
#[cycle(plain_type)]
fn plain_types(alloc: Global, types: &[DslxType]) -> Result<Seq<Ty>, AllocError>
    ensures { IfOk result (λ ts. ts ≡ map the_plain_type types.now) }
{
    let mut plain = Vec::new(alloc);
    'types: for ty in types {
        plain.push(plain_type(alloc, ty)?)?;
    }
    Ok(Seq::from_vec(plain))
}

fn plain_bits(width: u128) -> Result<Ty, AllocError>
    ensures { IfOk result (λ t. t ≡ bits_of width) }
{
    Ok(Ty::Bits(small(width)?))
}

fn plain_array(alloc: Global, part: Ty, count: u128) -> Result<Ty, AllocError>
    ensures { IfOk result (λ t. t ≡ array_of part count) }
{
    let count = small(count)?;
    Ok(Ty::Array(Boxed::new(alloc, part)?, count))
}

fn small(number: u128) -> Result<u64, AllocError>
    ensures { IfOk result (λ n. n ≡ number) }
{
    if number <= u128::from(u64::MAX) {
        Ok(number as u64)
    } else {
        Err(AllocError)
    }
}
