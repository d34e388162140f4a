//! Bits and arrays of bytes as values.

use dslx_meaning::DslxValue;
use std::alloc::{AllocError, Global};
use std::process::Abort;
use xb_bits::{Bits, slice};
use xb_value::Seq;

/// Bits of this sign and width, which hold the number.
pub fn bits<R: Abort>(rt: &R, signed: bool, width: u8, number: u128) -> DslxValue {
    assert!(rt; width >= 1 && width <= 128, "no width: {width}");
    let held = slice(Bits::new(128, number), 0, width);
    assert_eq!(rt; held.value(), number, "not of {width} bits: {number}");
    DslxValue::Bits(signed, held)
}

/// A value that a test keeps. Its `drop` is written out, so that it is proved once and not wherever one is let go.
pub struct Kept {
    value: DslxValue,
}

impl Drop for Kept {
    fn drop(self) {
        let Kept { value: _ } = self;
    }
}

impl Kept {
    pub fn new(value: DslxValue) -> Kept {
        Kept { value }
    }

    pub fn get(&self) -> &DslxValue {
        &self.value
    }
}

/// The elements of an array of unsigned bytes.
pub fn elements<R: Abort>(
    rt: &R,
    alloc: Global,
    numbers: &[u8],
) -> Result<Vec<DslxValue>, AllocError> {
    let mut elements = Vec::new(alloc);
    for number in numbers {
        elements.push(bits(rt, false, 8, u128::from(*number)))?;
    }
    Ok(elements)
}

/// An array of unsigned bytes.
pub fn bytes<R: Abort>(rt: &R, alloc: Global, numbers: &[u8]) -> Result<Kept, AllocError> {
    let elements = elements(rt, alloc, numbers)?;
    Ok(Kept::new(DslxValue::Array(Seq::from_vec(elements))))
}
