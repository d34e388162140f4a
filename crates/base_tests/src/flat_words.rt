//! Values and their flat words. `tools/bits_vectors.py` works the texts of those with `_are` again.

ghost use Rattle.std.specs.Prelude.{◌≤◌, ◌<◌, ◌+◌, ◌*◌, ◌^◌};

use std::alloc::Global;
use std::process::Abort;
use std::test::Fail;
use xb_bits::Bits;
use xb_value::{Boxed, Seq, Ty, Value, flat, unflat, value_text};

#[test]
fn the_first_part_is_high(rt: HostRuntime) -> Result<(), Fail> {
    let mut parts = Seq::new(rt.alloc());
    parts.push(Value::Bits(Bits::new(8, 0xff)))?;
    parts.push(Value::Bits(Bits::new(8, 0x00)))?;
    let value = Value::Tuple(parts);
    assert_eq!(rt; flat(&value), Bits::new(16, 0xff00));
    Ok(())
}

#[test]
fn an_array_in_a_tuple(rt: HostRuntime) -> Result<(), Fail> {
    let mut parts = Seq::new(rt.alloc());
    parts.push(Ty::Bits(3))?;
    parts.push(Ty::Array(Boxed::new(rt.alloc(), Ty::Bits(4))?, 2))?;
    let ty = Ty::Tuple(parts);
    let value = unflat(rt.alloc(), &ty, Bits::new(11, 0b101_0001_1110))?;
    let text = value_text(rt.alloc(), &value)?;
    assert_eq!(rt; text.as_str(), "(0x5, [0x1, 0xe])");
    assert_eq!(rt; flat(&value), Bits::new(11, 0b101_0001_1110));
    Ok(())
}

/// A number as a tuple of two.
fn halves_are<R: Abort>(
    rt: &R,
    alloc: Global,
    high: u8,
    low: u8,
    number: u128,
    want: &str,
) -> Result<(), Fail>
    requires high { 1 ≤ high }
    requires low { 1 ≤ low }
    requires most { high + low ≤ 128 }
    requires number { number < 2 ^ (high + low) }
{
    let mut parts = Seq::new(alloc);
    parts.push(Ty::Bits(u64::from(high)))?;
    parts.push(Ty::Bits(u64::from(low)))?;
    let value = unflat(alloc, &Ty::Tuple(parts), Bits::new(high + low, number))?;
    assert_eq!(rt; value_text(alloc, &value)?.as_str(), want);
    Ok(())
}

#[test]
fn words_of_two(rt: HostRuntime) -> Result<(), Fail> {
    let alloc = rt.alloc();
    halves_are(&rt, alloc, 1, 1, 0x2, "(0x1, 0x0)")?;
    halves_are(
        &rt,
        alloc,
        1,
        63,
        0x8000000000000001,
        "(0x1, 0x0000000000000001)",
    )?;
    halves_are(
        &rt,
        alloc,
        64,
        1,
        0x1fffffffffffffffe,
        "(0xffffffffffffffff, 0x0)",
    )?;
    halves_are(
        &rt,
        alloc,
        64,
        64,
        0x0123456789abcdeffedcba9876543210,
        "(0x0123456789abcdef, 0xfedcba9876543210)",
    )?;
    halves_are(
        &rt,
        alloc,
        1,
        127,
        0x80000000000000000000000000000005,
        "(0x1, 0x00000000000000000000000000000005)",
    )?;
    halves_are(
        &rt,
        alloc,
        127,
        1,
        0xfffffffffffffffffffffffffffffffe,
        "(0x7fffffffffffffffffffffffffffffff, 0x0)",
    )?;
    Ok(())
}

/// A number as an array.
fn rows_are<R: Abort>(
    rt: &R,
    alloc: Global,
    width: u8,
    count: u8,
    number: u128,
    want: &str,
) -> Result<(), Fail>
    requires width { 1 ≤ width }
    requires count { 1 ≤ count }
    requires most { count * width ≤ 128 }
    requires number { number < 2 ^ (count * width) }
{
    let ty = Ty::Array(
        Boxed::new(alloc, Ty::Bits(u64::from(width)))?,
        u64::from(count),
    );
    let value = unflat(alloc, &ty, Bits::new(count * width, number))?;
    assert_eq!(rt; value_text(alloc, &value)?.as_str(), want);
    Ok(())
}

#[test]
fn words_of_rows(rt: HostRuntime) -> Result<(), Fail> {
    let alloc = rt.alloc();
    rows_are(
        &rt,
        alloc,
        128,
        1,
        0xff,
        "[0x000000000000000000000000000000ff]",
    )?;
    rows_are(&rt, alloc, 8, 2, 0x80ff, "[0x80, 0xff]")?;
    rows_are(
        &rt,
        alloc,
        32,
        4,
        0x000000018000000000000000ffffffff,
        "[0x00000001, 0x80000000, 0x00000000, 0xffffffff]",
    )?;
    rows_are(
        &rt,
        alloc,
        63,
        2,
        0x3ffffffffffffffe0000000000000001,
        "[0x7ffffffffffffffc, 0x0000000000000001]",
    )?;
    Ok(())
}
