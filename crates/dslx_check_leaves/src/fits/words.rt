//! The values of types by flat words of few bits.

ghost use Rattle.std.specs.Prelude.{◌≡◌, ◌<◌, ◌≤◌, ◌%◌, ◌/◌, ◌^◌, IfOk, IfSome, MatchOption};
ghost use Rattle.xb_bits.specs.Word.{word};
ghost use Rattle.dslx_check_rules.specs.declared.table.row.TypeRow.{TypeRow as Row};
ghost use Rattle.dslx_check_facts.specs.Known.{item_names};
ghost use Rattle.dslx_check_leaves.specs.Fits.Words.{AreLows, IsLow, IsLowOfRow};

use crate::fits::items::{item_fields, item_name};
use dslx_check_facts::Facts;
use dslx_check_rules::{TypeId, TypeRow, TypeTable};
use dslx_meaning::{BitKind, DslxValue};
use std::alloc::AllocError;
use xb_bits::Bits;
use xb_value::Seq;

/// A value in the low bits of a number, and the number of the bits above them.
#[derive(Drop)]
pub struct Low {
    pub value: DslxValue,
    pub rest: u32,
}

/// The same of several values.
#[derive(Drop)]
pub(crate) struct Lows {
    pub values: Vec<DslxValue>,
    pub rest: u32,
}

/// The same of bits.
#[derive(Clone, Copy)]
struct LowBits {
    word: Bits,
    rest: u32,
}

/// How many words of so many bits there are, where there are at most 8.
pub fn word_count(width: u128) -> Option<u32>
    ensures is { IfSome result (λ n. n ≡ 2 ^ width) }
    ensures some { IfSome result (λ n. 0 < n) }
    ensures few { MatchOption result (8 < width) (λ n. width ≤ 8) }
{
    match width {
        0 => Some(1),
        1 => Some(2),
        2 => Some(4),
        3 => Some(8),
        4 => Some(16),
        5 => Some(32),
        6 => Some(64),
        7 => Some(128),
        8 => Some(256),
        _ => None,
    }
}

/// Takes the low bits. More than 8 of them are refused as for want of memory.
fn low_bits(width: u128, number: u32) -> Result<LowBits, AllocError>
    ensures word { IfOk result (λ low. low.word ≡ word width (number % 2 ^ width)) }
    ensures rest { IfOk result (λ low. low.rest ≡ number / 2 ^ width) }
{
    if width == 0 {
        return Err(AllocError);
    }
    match word_count(width) {
        Some(count) => Ok(LowBits {
            word: Bits::new(width as u8, u128::from(number % count)),
            rest: number / count,
        }),
        None => Err(AllocError),
    }
}

/// The value of a type in the low bits of a number.
#[cycle(low)]
pub fn low_value(f: &Facts, types: &TypeTable, ty: TypeId, number: u32) -> Result<Low, AllocError>
    ensures { IfOk result (IsLow (item_names f.now) types.now ty number) }
{
    match types.row(ty) {
        Some(row) => low_of_row(f, types, row, number),
        None => Err(AllocError),
    }
}

/// The same of the type that a row is.
#[cycle(low)]
fn low_of_row(f: &Facts, types: &TypeTable, row: &TypeRow, number: u32) -> Result<Low, AllocError>
    ensures { IfOk result (IsLowOfRow (item_names f.now) types.now row.now number) }
{
    match row {
        TypeRow::Bits(kind) => low_word(*kind, number),
        TypeRow::Tuple(parts) => low_tuple(f, types, parts.as_slice(), number),
        TypeRow::Array(part, count) => low_array(f, types, *part, *count, number),
        TypeRow::Struct(item, parts) => low_struct(f, types, *item, parts.as_slice(), number),
        TypeRow::Enum(item, kind) => low_enum(f, *item, *kind, number),
        TypeRow::Token => Ok(Low {
            value: DslxValue::Token,
            rest: number,
        }),
    }
}

fn low_word(kind: BitKind, number: u32) -> Result<Low, AllocError>
    ensures value { IfOk result (λ low. low.value ≡ DslxValue.Bits kind.signed (word kind.width (number % 2 ^ kind.width))) }
    ensures rest { IfOk result (λ low. low.rest ≡ number / 2 ^ kind.width) }
{
    let low = low_bits(kind.width, number)?;
    Ok(Low {
        value: DslxValue::Bits(kind.signed, low.word),
        rest: low.rest,
    })
}

fn low_enum(f: &Facts, item: u32, kind: BitKind, number: u32) -> Result<Low, AllocError>
    ensures value { IfOk result (λ low. low.value ≡ DslxValue.Enum ((item_names f.now).item item) kind.signed (word kind.width (number % 2 ^ kind.width))) }
    ensures rest { IfOk result (λ low. low.rest ≡ number / 2 ^ kind.width) }
{
    let low = low_bits(kind.width, number)?;
    let name = item_name(f, item)?;
    Ok(Low {
        value: DslxValue::Enum(name, kind.signed, low.word),
        rest: low.rest,
    })
}

#[cycle(low)]
fn low_tuple(f: &Facts, types: &TypeTable, parts: &[TypeId], number: u32) -> Result<Low, AllocError>
    ensures { IfOk result (IsLowOfRow (item_names f.now) types.now (Row.Tuple parts.now) number) }
{
    let lows = low_parts(f, types, parts, number)?;
    Ok(Low {
        value: DslxValue::Tuple(Seq::from_vec(lows.values)),
        rest: lows.rest,
    })
}

#[cycle(low)]
fn low_struct(
    f: &Facts,
    types: &TypeTable,
    item: u32,
    parts: &[TypeId],
    number: u32,
) -> Result<Low, AllocError>
    ensures { IfOk result (IsLowOfRow (item_names f.now) types.now (Row.Struct item parts.now) number) }
{
    let name = item_name(f, item)?;
    let fields = item_fields(f, item)?;
    let lows = low_parts(f, types, parts, number)?;
    Ok(Low {
        value: DslxValue::Struct(name, fields, Seq::from_vec(lows.values)),
        rest: lows.rest,
    })
}

/// The values of these types, the last one in the lowest bits.
#[cycle(low)]
fn low_parts(
    f: &Facts,
    types: &TypeTable,
    parts: &[TypeId],
    number: u32,
) -> Result<Lows, AllocError>
    ensures { IfOk result (AreLows (item_names f.now) types.now parts.now number) }
{
    let mut values = Vec::new(f.alloc);
    let mut rest = number;
    let count = parts.len();
    'parts: for i in 0..count {
        let low = low_value(f, types, parts[count - 1 - i], rest)?;
        values.push(low.value)?;
        rest = low.rest;
    }
    values.reverse();
    Ok(Lows { values, rest })
}

/// As many values of one type, the last one in the lowest bits.
#[cycle(low)]
fn low_array(
    f: &Facts,
    types: &TypeTable,
    part: TypeId,
    count: u128,
    number: u32,
) -> Result<Low, AllocError>
    ensures { IfOk result (IsLowOfRow (item_names f.now) types.now (Row.Array part count) number) }
{
    let mut values = Vec::new(f.alloc);
    let mut rest = number;
    'turns: for _ in 0..count {
        let low = low_value(f, types, part, rest)?;
        values.push(low.value)?;
        rest = low.rest;
    }
    values.reverse();
    Ok(Low {
        value: DslxValue::Array(Seq::from_vec(values)),
        rest,
    })
}
