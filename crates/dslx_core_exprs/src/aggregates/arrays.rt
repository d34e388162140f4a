//! Arrays of elements that are all written.

ghost use Rattle.std.specs.Prelude.{◌≡◌, Some, IfOk, length};
ghost use Rattle.std.specs.List.{list_all};
ghost use Rattle.dslx_core.specs.declared.expr.CoreExpr.{Array as array_core};
ghost use Rattle.dslx_meaning.specs.declared.ty.DslxType.{Array as array_type};
ghost use Rattle.dslx_core.specs.Lowering.EqualTypes.{equal_type as are_equal};
ghost use Rattle.dslx_core.specs.Lowering.Lowering.{LoweredExpr as LoweredPart, cores_of as the_cores, lowered};
ghost use Rattle.dslx_core.specs.Lowering.Trees as trees;
ghost use Rattle.dslx_core_exprs.specs.Aggregates.Inner.Elements.{type_of_all as the_type_of_all, type_of_first as the_type_of_first};

use crate::aggregates::parts::cores_of;
use crate::alike::equal_type;
use dslx_core::CoreExpr;
use dslx_core::lowering::LoweredExpr;
use dslx_meaning::DslxType;
use dslx_values::copy_type;
use std::alloc::{AllocError, Global};
use xb_value::Boxed;

/// An array of these elements, if there are any and all are of one type.
#[tactic(auto, using(crate::proofs::OnAggregates::Elements::elements_none, crate::proofs::OnAggregates::Elements::elements_some))]
pub fn lower_array_elements(
    alloc: Global,
    exprs: Vec<LoweredExpr>,
) -> Result<Option<LoweredExpr>, AllocError>
    ensures { IfOk result (λ e. e ≡ trees.lower_array_elements exprs.items) }
{
    match type_of_all(alloc, exprs.as_slice())? {
        Some(ty) => Ok(Some(array_of(alloc, ty, exprs)?)),
        None => Ok(None),
    }
}

/// An array of these elements of a type.
fn array_of(alloc: Global, ty: DslxType, exprs: Vec<LoweredExpr>) -> Result<LoweredExpr, AllocError>
    ensures { IfOk result (λ e. Some e ≡ lowered (array_core (the_cores exprs.items)) (array_type ty (length exprs.items))) }
{
    let size = exprs.len() as u128;
    written_array(alloc, ty, size, exprs)
}

/// An array of these elements, as so many of a type.
pub(crate) fn written_array(
    alloc: Global,
    ty: DslxType,
    size: u128,
    exprs: Vec<LoweredExpr>,
) -> Result<LoweredExpr, AllocError>
    ensures { IfOk result (λ e. Some e ≡ lowered (array_core (the_cores exprs.items)) (array_type ty size)) }
{
    Ok(LoweredExpr {
        core: Boxed::new(alloc, CoreExpr::Array(cores_of(alloc, exprs)?))?,
        ty: DslxType::Array(Boxed::new(alloc, ty)?, size),
    })
}

/// The type of the first, copied, if there is one and all are of its type.
fn type_of_all(alloc: Global, exprs: &[LoweredExpr]) -> Result<Option<DslxType>, AllocError>
    ensures { IfOk result (λ t. t ≡ the_type_of_all exprs.now) }
{
    match exprs {
        [] => Ok(None),
        [first, rest @ ..] => type_of_first(alloc, first, rest),
    }
}

#[tactic(auto, using(crate::proofs::OnAggregates::Elements::all_alike, crate::proofs::OnAggregates::Elements::not_alike))]
fn type_of_first(
    alloc: Global,
    first: &LoweredExpr,
    rest: &[LoweredExpr],
) -> Result<Option<DslxType>, AllocError>
    ensures { IfOk result (λ t. t ≡ the_type_of_first first.now rest.now) }
{
    if all_of_type(&first.ty, rest) {
        Ok(Some(copy_type(alloc, &first.ty)?))
    } else {
        Ok(None)
    }
}

/// Whether all are of a type.
fn all_of_type(ty: &DslxType, exprs: &[LoweredExpr]) -> bool
    ensures { result ≡ list_all (λ (e : LoweredPart). are_equal ty.now e.ty) exprs.now }
{
    exprs.iter().all(|expr| equal_type(ty, &expr.ty))
}
