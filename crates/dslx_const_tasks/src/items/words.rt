//! Operations whose word may be too wide. No type of a checked text has more than 128 bits, so they are given up as where memory
//! is wanting.

ghost use Rattle.std.specs.Prelude.{◌≡◌, IfOk};
ghost use Rattle.dslx_meaning.specs.Operators as the;

use dslx_meaning::{DslxType, DslxValue, UntypedLiteral};
use dslx_tree::Binary;
use dslx_values::operators::{binary_value, cast_value, number_value, part_value};
use std::alloc::AllocError;

/// A number of a type.
pub fn number_of(ty: &DslxType, number: UntypedLiteral) -> Result<Option<DslxValue>, AllocError>
    ensures { IfOk result (λ v. v ≡ the.number_value ty.now number) }
{
    match number_value(ty, number) {
        Ok(value) => Ok(value),
        Err(_) => Err(AllocError),
    }
}

/// A value as one of a type; a width that no word has is answered as for want of memory.
pub fn cast(ty: &DslxType, value: &DslxValue) -> Result<Option<DslxValue>, AllocError>
    ensures { IfOk result (λ v. v ≡ the.cast_value ty.now value.now) }
{
    match cast_value(ty, value) {
        Ok(value) => Ok(value),
        Err(_) => Err(AllocError),
    }
}

/// So many bits of a value from a bit on; a width that no word has is answered as for want of memory.
pub fn part(
    value: &DslxValue,
    start: &DslxValue,
    width: u128,
) -> Result<Option<DslxValue>, AllocError>
    ensures { IfOk result (λ v. v ≡ the.part_value value.now start.now width) }
{
    match part_value(value, start, width) {
        Ok(value) => Ok(value),
        Err(_) => Err(AllocError),
    }
}

/// What an operator gives for two values; a width that no word has is answered as for want of memory.
pub fn binary(
    op: Binary,
    left: &DslxValue,
    right: &DslxValue,
) -> Result<Option<DslxValue>, AllocError>
    ensures { IfOk result (λ v. v ≡ the.binary_value op left.now right.now) }
{
    match binary_value(op, left, right) {
        Ok(value) => Ok(value),
        Err(_) => Err(AllocError),
    }
}
