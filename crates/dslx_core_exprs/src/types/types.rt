//! What is asked of the types of operands.

ghost use Rattle.std.specs.Prelude.{◌≡◌, Some, slice_get};
ghost use Rattle.std.specs.Option.{option_map};
ghost use Rattle.dslx_core.specs.CoreValues.{is_width as is_some_width};
ghost use Rattle.dslx_core.specs.Lowering.Lowering.{sign_of as the_sign};
ghost use Rattle.dslx_meaning.specs.Lists.{and_then, where_true};
ghost use Rattle.dslx_meaning.specs.Types.{bits_in as the_bits, bool_type as one_bit, unsigned as unsigned_bits};
ghost use Rattle.dslx_meaning.specs.Rules.AggregateRules.{array_in, part_type as the_part_type};
ghost use Rattle.dslx_meaning.specs.Rules.OperatorRules.{width_of_type as the_width};

use dslx_core::Sign;
use dslx_meaning::DslxType;
use dslx_values::{bits_in, bits_or_enum};
use xb_value::Seq;

/// How bits of a type, or those of an enum, are read.
pub fn sign_of(ty: &DslxType) -> Sign
    ensures { result ≡ the_sign ty.now }
{
    match bits_or_enum(ty) {
        Some(kind) => if kind.signed {
            Sign::Signed
        } else {
            Sign::Unsigned
        },
        None => Sign::Unsigned,
    }
}

/// The width of bits; 0 where a type is none.
pub fn width_of_type(ty: &DslxType) -> u128
    ensures { result ≡ the_width ty.now }
{
    match bits_in(ty) {
        Some(kind) => kind.width,
        None => 0,
    }
}

/// The width of bits, where words have so many.
pub fn word_width(ty: &DslxType) -> Option<u8>
    ensures { result ≡ and_then (the_bits ty.now) (λ kind. where_true (is_some_width kind.width) (Some kind.width)) }
{
    match bits_in(ty) {
        Some(kind) => as_width(kind.width),
        None => None,
    }
}

fn as_width(width: u128) -> Option<u8>
    ensures { result ≡ where_true (is_some_width width) (Some width) }
{
    if 0 < width && width <= 128 {
        Some(width as u8)
    } else {
        None
    }
}

/// The type of a condition.
pub fn bool_type() -> DslxType
    ensures { result ≡ one_bit }
{
    DslxType::Bits(false, 1)
}

/// Unsigned bits.
pub fn unsigned(width: u128) -> DslxType
    ensures { result ≡ unsigned_bits width }
{
    DslxType::Bits(false, width)
}

/// The type of an array's elements.
pub fn into_element(ty: DslxType) -> Option<DslxType>
    ensures { result ≡ option_map (λ parts. parts.0) (array_in ty) }
{
    match ty {
        DslxType::Array(part, _) => Some(part.into_inner()),
        _ => None,
    }
}

/// The type of the part of a tuple of this number.
pub fn into_part(ty: DslxType, place: u64) -> Option<DslxType>
    ensures { result ≡ the_part_type ty place }
{
    match ty {
        DslxType::Tuple(parts) => nth(parts, place),
        _ => None,
    }
}

/// The type of this number.
fn nth(types: Seq<DslxType>, place: u64) -> Option<DslxType>
    ensures { result ≡ slice_get types place }
{
    if place < types.len() as u64 {
        let mut types = types;
        Some(types.remove(place as usize))
    } else {
        None
    }
}
