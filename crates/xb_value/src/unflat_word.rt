//! The value of a type that a flat word holds.

ghost use Rattle.std.specs.Prelude.{◌≡◌, ◌≤◌, ◌/◌, ◌%◌, ◌^◌, IfOk, map};
ghost use Rattle.xb_bits.specs.Word.{word};
ghost use Rattle.xb_value.specs.Flat.{flat_of};
ghost use Rattle.xb_value.specs.Typing.{IsOfType};
ghost use Rattle.xb_value.specs.Unflat.{taken_low, taken_by, taken_times, unflat_of};
ghost use Rattle.xb_value.specs.Width.{width_of, HasWidths, HasAllWidths};

use crate::ty::Ty;
use crate::value::Value;
use sqlite_items::Items as Seq;
use std::alloc::{AllocError, Global};
use xb_bits::{Bits, shrl, slice};

/// The value in the low bits of a number, and the number of the bits above them.
#[derive(Drop)]
struct Low {
    value: Value,
    rest: u128,
}

/// The same of several values.
#[derive(Drop)]
struct Lows {
    values: Vec<Value>,
    rest: u128,
}

/// The value of the type, whose flat word is `bits`. It takes time and memory as the value is large.
pub fn unflat(alloc: Global, ty: &Ty, bits: Bits) -> Result<Value, AllocError>
    requires widths { HasWidths ty.now }
    requires fits { width_of ty.now ≡ bits.width }
    ensures value { IfOk result (λ v. v ≡ unflat_of ty.now bits.value) }
    ensures of_type { IfOk result (IsOfType ty.now) }
    ensures flat { IfOk result (λ v. flat_of v ≡ bits) }
{
    Ok(take_low(alloc, ty, bits.value())?.value)
}

/// Takes a value of the type from the low bits.
#[cycle(take)]
fn take_low(alloc: Global, ty: &Ty, number: u128) -> Result<Low, AllocError>
    requires { HasWidths ty.now }
    ensures value { IfOk result (λ low. low.value ≡ (taken_low ty.now number).0) }
    ensures rest { IfOk result (λ low. low.rest ≡ (taken_low ty.now number).1) }
{
    match ty {
        Ty::Bits(width) => Ok(take_bits(*width, number)),
        Ty::Tuple(parts) => {
            let lows = take_each(alloc, parts.as_slice(), number)?;
            Ok(Low {
                value: Value::Tuple(Seq::from_vec(lows.values)),
                rest: lows.rest,
            })
        }
        Ty::Array(part, count) => {
            let lows = take_times(alloc, *count, part.get(), number)?;
            Ok(Low {
                value: Value::Array(Seq::from_vec(lows.values)),
                rest: lows.rest,
            })
        }
    }
}

/// Takes a value of each type, the last from the lowest bits.
#[cycle(take)]
fn take_each(alloc: Global, parts: &[Ty], number: u128) -> Result<Lows, AllocError>
    requires { HasAllWidths parts.now }
    ensures values { IfOk result (λ lows. lows.values.items ≡ (taken_by (map taken_low parts.now) number).0) }
    ensures rest { IfOk result (λ lows. lows.rest ≡ (taken_by (map taken_low parts.now) number).1) }
{
    let mut values = Vec::new(alloc);
    let mut rest = number;
    let count = parts.len();
    'parts: for i in 0..count {
        let low = take_low(alloc, &parts[count - 1 - i], rest)?;
        values.push(low.value)?;
        rest = low.rest;
    }
    values.reverse();
    Ok(Lows { values, rest })
}

/// Takes as many values of one type, the last from the lowest bits.
#[cycle(take)]
fn take_times(alloc: Global, count: u64, part: &Ty, number: u128) -> Result<Lows, AllocError>
    requires { HasWidths part.now }
    ensures values { IfOk result (λ lows. lows.values.items ≡ (taken_times count (taken_low part.now) number).0) }
    ensures rest { IfOk result (λ lows. lows.rest ≡ (taken_times count (taken_low part.now) number).1) }
{
    let mut values = Vec::new(alloc);
    let mut rest = number;
    'turns: for _ in 0..count {
        let low = take_low(alloc, part, rest)?;
        values.push(low.value)?;
        rest = low.rest;
    }
    values.reverse();
    Ok(Lows { values, rest })
}

/// Takes the low `width` bits.
fn take_bits(width: u64, number: u128) -> Low
    requires some_width { 1 ≤ width }
    requires most_width { width ≤ 128 }
    ensures value { result.value ≡ Value.Bits (word width (number % 2 ^ width)) }
    ensures rest { result.rest ≡ number / 2 ^ width }
{
    let width = width as u8;
    let bits = Bits::new(128, number);
    let low = slice(bits, 0, width);
    let high = shrl(bits, Bits::new(8, u128::from(width)));
    Low {
        value: Value::Bits(low),
        rest: high.value(),
    }
}
