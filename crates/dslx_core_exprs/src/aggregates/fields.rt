//! Fields of structs.

ghost use Rattle.std.specs.Prelude.{◌≡◌, Some, IfOk, slice_get};
ghost use Rattle.dslx_core.specs.declared.expr.CoreExpr.{Element as element_core, Slot as slot_core};
ghost use Rattle.dslx_meaning.specs.Lists.{and_then, index_in};
ghost use Rattle.dslx_meaning.specs.declared.ty.DslxType.{out-DslxType};
ghost use Rattle.dslx_core.specs.Lowering.Lowering as lowering;
ghost use Rattle.dslx_core.specs.Lowering.Lowering.{field_index as the_place, lowered};

use base::texts::Name;
use dslx_core::CoreExpr;
use dslx_core::lowering::LoweredExpr;
use dslx_meaning::DslxType;
use dslx_values::copy_type;
use std::alloc::{AllocError, Global};
use xb_value::Boxed;

/// The field of a struct of this name.
pub fn lower_field(
    alloc: Global,
    expr: LoweredExpr,
    field: &Name,
) -> Result<Option<LoweredExpr>, AllocError>
    ensures { IfOk result (λ e. e ≡ lowering.lower_field (Some expr) field.now) }
{
    match field_index(alloc, &expr.ty, field)? {
        Some((place, ty)) => Ok(Some(LoweredExpr {
            core: Boxed::new(alloc, CoreExpr::Element(expr.core, place))?,
            ty,
        })),
        None => Ok(None),
    }
}

/// The field of this name of a bound struct of a type.
pub fn field_of_slot(
    alloc: Global,
    slot: u64,
    ty: &DslxType,
    field: &Name,
) -> Result<Option<LoweredExpr>, AllocError>
    ensures { IfOk result (λ e. e ≡ lowering.lower_field (lowered (slot_core slot) ty.now) field.now) }
{
    match field_index(alloc, ty, field)? {
        Some((place, ty)) => Ok(Some(LoweredExpr {
            core: element_of_slot(alloc, slot, place)?,
            ty,
        })),
        None => Ok(None),
    }
}

fn element_of_slot(alloc: Global, slot: u64, place: u64) -> Result<Boxed<CoreExpr>, AllocError>
    ensures { IfOk result (λ e. e ≡ element_core (slot_core slot) place) }
{
    let tuple = Boxed::new(alloc, CoreExpr::Slot(slot))?;
    Boxed::new(alloc, CoreExpr::Element(tuple, place))
}

/// The index of the field of this name of a struct, and its type, copied.
fn field_index(
    alloc: Global,
    ty: &DslxType,
    field: &Name,
) -> Result<Option<(u64, DslxType)>, AllocError>
    ensures { IfOk result (λ p. p ≡ the_place field.now (out-DslxType ty.now)) }
{
    match ty {
        DslxType::Struct(_, names, types) => {
            type_beside(alloc, names.as_slice(), types.as_slice(), field)
        }
        _ => Ok(None),
    }
}

/// The index of the first of the names that is this one, and the type there, copied.
fn type_beside(
    alloc: Global,
    names: &[Name],
    types: &[DslxType],
    field: &Name,
) -> Result<Option<(u64, DslxType)>, AllocError>
    ensures { IfOk result (λ p. p ≡ and_then (index_in field.now names.now) (λ k. and_then (slice_get types.now k) (λ t. Some (k, t)))) }
{
    match index_of(field.as_str(), names) {
        Some(place) => type_at(alloc, types, place),
        None => Ok(None),
    }
}

/// The index with the type there, copied, if there is one.
fn type_at(
    alloc: Global,
    types: &[DslxType],
    place: usize,
) -> Result<Option<(u64, DslxType)>, AllocError>
    ensures { IfOk result (λ p. p ≡ and_then (slice_get types.now place) (λ t. Some (place, t))) }
{
    match types.get(place) {
        Some(ty) => Ok(Some((place as u64, copy_type(alloc, ty)?))),
        None => Ok(None),
    }
}

/// The index of the first of the names that is this one.
fn index_of(name: &str, names: &[Name]) -> Option<usize>
    ensures { result ≡ index_in name.now names.now }
{
    'names: for i in 0..names.len() {
        if name == names[i].as_str() {
            return Some(i);
        }
    }
    None
}
