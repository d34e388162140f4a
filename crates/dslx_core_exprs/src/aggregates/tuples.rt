//! Tuples, and structs, which are lowered to tuples of their fields.

ghost use Rattle.std.specs.Prelude.{◌≡◌, Some, IfOk};
ghost use Rattle.dslx_core.specs.declared.expr.CoreExpr.{Tuple as tuple_core};
ghost use Rattle.dslx_meaning.specs.declared.ty.DslxType.{Tuple as tuple_type};
ghost use Rattle.dslx_core.specs.Lowering.Lowering.{cores_of as the_cores, lowered, types_of_lowered};

use crate::aggregates::parts::{cores_of, types_of};
use dslx_core::CoreExpr;
use dslx_core::lowering::LoweredExpr;
use dslx_meaning::DslxType;
use std::alloc::{AllocError, Global};
use xb_value::Boxed;

/// A tuple of these parts.
pub fn lower_tuple(alloc: Global, exprs: Vec<LoweredExpr>) -> Result<LoweredExpr, AllocError>
    ensures { IfOk result (λ e. Some e ≡ lowered (tuple_core (the_cores exprs.items)) (tuple_type (types_of_lowered exprs.items))) }
{
    let types = types_of(alloc, exprs.as_slice())?;
    lower_struct(alloc, exprs, DslxType::Tuple(types))
}

/// A tuple of these fields, as a value of a type.
pub fn lower_struct(
    alloc: Global,
    exprs: Vec<LoweredExpr>,
    ty: DslxType,
) -> Result<LoweredExpr, AllocError>
    ensures { IfOk result (λ e. Some e ≡ lowered (tuple_core (the_cores exprs.items)) ty) }
{
    Ok(LoweredExpr {
        core: Boxed::new(alloc, CoreExpr::Tuple(cores_of(alloc, exprs)?))?,
        ty,
    })
}
