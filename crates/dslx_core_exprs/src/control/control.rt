//! Choices, values that are bound, and parts of values.

ghost use Rattle.std.specs.Prelude.{◌≡◌, Some, IfOk};
ghost use Rattle.dslx_core.specs.declared.expr.CoreExpr.{Bind as bind_of, Choose as choice_of};
ghost use Rattle.dslx_core.specs.Lowering.Lowering as lowering;

use crate::alike::equal_type;
use crate::types::{into_element, into_part};
use dslx_core::lowering::LoweredExpr;
use dslx_core::{CoreExpr, Shape};
use std::alloc::{AllocError, Global};
use xb_value::Boxed;

/// The second where the first is 1, else the third, which are of one type.
pub fn lower_choice(
    alloc: Global,
    condition: LoweredExpr,
    yes: LoweredExpr,
    no: LoweredExpr,
) -> Result<Option<LoweredExpr>, AllocError>
    ensures { IfOk result (λ e. e ≡ lowering.lower_choice (Some condition) (Some yes) (Some no)) }
{
    if equal_type(&yes.ty, &no.ty) {
        Ok(Some(chosen(alloc, condition, yes, no)?))
    } else {
        Ok(None)
    }
}

/// The choice, of the type of the second.
fn chosen(
    alloc: Global,
    condition: LoweredExpr,
    yes: LoweredExpr,
    no: LoweredExpr,
) -> Result<LoweredExpr, AllocError>
    ensures { IfOk result (λ e. Some e ≡ lowering.lowered (choice_of condition.core yes.core no.core) yes.ty) }
{
    Ok(LoweredExpr {
        core: Boxed::new(alloc, CoreExpr::Choose(condition.core, yes.core, no.core))?,
        ty: yes.ty,
    })
}

/// An expression over what a value binds that is taken apart so.
pub fn lower_bind(
    alloc: Global,
    value: Boxed<CoreExpr>,
    shape: Shape,
    body: LoweredExpr,
) -> Result<LoweredExpr, AllocError>
    ensures { IfOk result (λ e. Some e ≡ lowering.lowered (bind_of value shape body.core) body.ty) }
{
    Ok(LoweredExpr {
        core: Boxed::new(alloc, CoreExpr::Bind(value, shape, body.core))?,
        ty: body.ty,
    })
}

/// The part of a tuple of this number.
#[tactic(auto, using(crate::proofs::OnControl::Elements::element_none, crate::proofs::OnControl::Elements::element_some))]
pub fn lower_element(
    alloc: Global,
    tuple: LoweredExpr,
    place: u64,
) -> Result<Option<LoweredExpr>, AllocError>
    ensures { IfOk result (λ e. e ≡ lowering.lower_element (Some tuple) place) }
{
    match into_part(tuple.ty, place) {
        Some(ty) => Ok(Some(LoweredExpr {
            core: Boxed::new(alloc, CoreExpr::Element(tuple.core, place))?,
            ty,
        })),
        None => Ok(None),
    }
}

/// The element of an array at an index.
#[tactic(auto, using(crate::proofs::OnControl::Elements::index_none, crate::proofs::OnControl::Elements::index_some))]
pub fn lower_index(
    alloc: Global,
    array: LoweredExpr,
    index: LoweredExpr,
) -> Result<Option<LoweredExpr>, AllocError>
    ensures { IfOk result (λ e. e ≡ lowering.lower_index (Some array) (Some index)) }
{
    match into_element(array.ty) {
        Some(ty) => Ok(Some(LoweredExpr {
            core: Boxed::new(alloc, CoreExpr::Index(array.core, index.core))?,
            ty,
        })),
        None => Ok(None),
    }
}
