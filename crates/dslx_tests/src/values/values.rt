//! The type of an array without elements.

use crate::values::shared::bytes;
use dslx_meaning::DslxType;
use dslx_values::{same_type, type_of_value};
use std::alloc::{AllocError, Global};
use std::process::Abort;
use std::test::Fail;
use xb_value::{Boxed, Seq};

/// Whether this is the type of an array of these bytes.
fn is_type_of<R: Abort>(
    rt: &R,
    alloc: Global,
    numbers: &[u8],
    ty: &DslxType,
) -> Result<bool, AllocError> {
    let array = bytes(rt, alloc, numbers)?;
    Ok(same_type(&type_of_value(alloc, array.get())?, ty))
}

#[test]
fn an_array_without_elements_has_a_type(rt: HostRuntime) -> Result<(), Fail> {
    let alloc = rt.alloc();
    let none = Boxed::new(alloc, DslxType::Tuple(Seq::new(alloc)))?;
    assert!(rt; is_type_of(&rt, alloc, &[], none.get())?);
    Ok(())
}
