//! A type that several tests share, and tests of types and values as such.

use std::alloc::{AllocError, Global};
use std::test::Fail;
use xb_value::{Boxed, Seq, Ty, leaves, read_value};

/// `(u8, u5[2], u1)`
pub(crate) fn mixed(alloc: Global) -> Result<Ty, AllocError> {
    let five = Boxed::new(alloc, Ty::Bits(5))?;
    let mut parts = Seq::new(alloc);
    parts.push(Ty::Bits(8))?;
    parts.push(Ty::Array(five, 2))?;
    parts.push(Ty::Bits(1))?;
    Ok(Ty::Tuple(parts))
}

#[test]
fn counts_that_stop(rt: HostRuntime) -> Result<(), Fail> {
    let ty = mixed(rt.alloc())?;
    assert_eq!(rt; leaves(&ty), 4);
    assert_eq!(rt; ty.width(), 19);
    let row = Ty::Array(Boxed::new(rt.alloc(), ty)?, 1 << 40);
    assert_eq!(rt; leaves(&row), 1 << 42);
    let rows = Ty::Array(Boxed::new(rt.alloc(), row)?, 1 << 40);
    assert_eq!(rt; leaves(&rows), u64::MAX);
    assert_eq!(rt; rows.width(), u64::MAX);
    Ok(())
}

#[test]
fn copies_are_equal(rt: HostRuntime) -> Result<(), Fail> {
    let ty = mixed(rt.alloc())?;
    let copy = ty.copy(rt.alloc())?;
    assert!(rt; ty.is(&copy));
    assert!(rt; !ty.is(&Ty::Bits(19)));
    let value = read_value(rt.alloc(), "(0x0a, [0x01, 0x1f], 0x1)", &ty)?;
    let other = read_value(rt.alloc(), "(0x0a, [0x01, 0x1e], 0x1)", &ty)?;
    let same = value.copy(rt.alloc())?;
    assert!(rt; value.is(&same));
    assert!(rt; !value.is(&other));
    Ok(())
}
