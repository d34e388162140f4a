//! Patterns that are one value.

ghost use Rattle.std.specs.Prelude.{◌≡◌, Some, IfOk};
ghost use Rattle.dslx_scope_names.specs.Patterns.Tops.{equal_shape};

use dslx_core::Shape;
use dslx_core_exprs::alike::equal_type;
use dslx_core_exprs::types::plain_value;
use dslx_meaning::{DslxType, DslxValue};
use dslx_values::type_of_value;
use std::alloc::{AllocError, Global};

/// The shape that a value of the type has to be equal to, if the pattern's own value is of the type.
pub(crate) fn value_shape(
    alloc: Global,
    value: Option<DslxValue>,
    ty: &DslxType,
) -> Result<Option<Shape>, AllocError>
    ensures { IfOk result (λ s. s ≡ equal_shape value ty.now) }
{
    match value {
        Some(value) => shape_of_type(alloc, &value, ty),
        None => Ok(None),
    }
}

fn shape_of_type(
    alloc: Global,
    value: &DslxValue,
    ty: &DslxType,
) -> Result<Option<Shape>, AllocError>
    ensures { IfOk result (λ s. s ≡ equal_shape (Some value.now) ty.now) }
{
    let own = type_of_value(alloc, value)?;
    if equal_type(ty, &own) {
        Ok(Some(Shape::Equal(plain_value(alloc, value)?)))
    } else {
        Ok(None)
    }
}
