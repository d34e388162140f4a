//! Arrays of a type that is written, whose last element may be repeated.

ghost use Rattle.std.specs.Prelude.{◌≡◌, ◌+◌, ◌++◌, Some, true, IfOk, OnOk, map};
ghost use Rattle.dslx_core.specs.declared.expr.CoreExpr.{Slot as slot_core};
ghost use Rattle.dslx_core.specs.declared.expr.Shape.{Bound as bound_shape};
ghost use Rattle.dslx_meaning.specs.Lists.{repeated};
ghost use Rattle.dslx_core.specs.Lowering.Lowering.{LoweredExpr as LoweredPart};
ghost use Rattle.dslx_core.specs.Lowering.Trees as trees;
ghost use Rattle.dslx_core.specs.Lowering.Trees.{slots_from as the_slots};
ghost use Rattle.dslx_core_exprs.specs.Aggregates.Inner.Elements.{filled_slots as the_filled, fits_size as has_size, fitting as the_array, is_size as is_wanted};

use crate::aggregates::arrays::written_array;
use crate::aggregates::parts::cores_of;
use crate::control::lower_bind;
use dslx_core::lowering::LoweredExpr;
use dslx_core::{CoreExpr, Shape};
use dslx_meaning::DslxType;
use std::alloc::{AllocError, Global};
use xb_value::{Boxed, Seq};

/// An array of so many elements of a type, where `count` values are bound: those that are written, the last of which is
/// repeated where dots stand. `None` where they are not as many, or with dots more or none. It takes time and memory as the
/// array is large; where a value's number would pass 2^64 - 1 it gives up as for want of memory.
#[tactic(auto, using(crate::proofs::OnAggregates::Elements::filled_none, crate::proofs::OnAggregates::Elements::filled_some))]
pub fn lower_filled(
    alloc: Global,
    count: u64,
    ty: DslxType,
    dots: bool,
    size: u128,
    exprs: Vec<LoweredExpr>,
) -> Result<Option<LoweredExpr>, AllocError>
    ensures { IfOk result (λ e. e ≡ trees.lower_filled count ty dots size exprs.items) }
{
    if fits_size(dots, size, exprs.as_slice()) {
        Ok(Some(lower_fitting(alloc, count, ty, dots, size, exprs)?))
    } else {
        Ok(None)
    }
}

/// Whether elements are written, and as many as are wanted, or with dots no more.
fn fits_size(dots: bool, size: u128, exprs: &[LoweredExpr]) -> bool
    ensures { result ≡ has_size dots size exprs.now }
{
    match exprs {
        [] => false,
        [_, ..] => is_size(dots, size, exprs.len() as u128),
    }
}

fn is_size(dots: bool, size: u128, written: u128) -> bool
    ensures { result ≡ is_wanted dots size written }
{
    if dots {
        written <= size
    } else {
        written == size
    }
}

/// The array of elements that are as many as are wanted, or with dots no more.
fn lower_fitting(
    alloc: Global,
    count: u64,
    ty: DslxType,
    dots: bool,
    size: u128,
    exprs: Vec<LoweredExpr>,
) -> Result<LoweredExpr, AllocError>
    ensures { IfOk result (λ e. Some e ≡ the_array count ty dots size exprs.items) }
{
    if dots {
        filled_up(alloc, count, ty, size, exprs)
    } else {
        written_array(alloc, ty, size, exprs)
    }
}

/// The elements are bound, so that the last of them, which is repeated, is evaluated once.
fn filled_up(
    alloc: Global,
    count: u64,
    ty: DslxType,
    size: u128,
    exprs: Vec<LoweredExpr>,
) -> Result<LoweredExpr, AllocError>
    ensures { IfOk result (λ e. Some e ≡ the_array count ty true size exprs.items) }
{
    let shapes = bound_shapes(alloc, exprs.as_slice())?;
    let slots = filled_slots(alloc, count, size, exprs.as_slice())?;
    let body = LoweredExpr {
        core: Boxed::new(alloc, CoreExpr::Array(slots))?,
        ty: DslxType::Array(Boxed::new(alloc, ty)?, size),
    };
    let values = Boxed::new(alloc, CoreExpr::Tuple(cores_of(alloc, exprs)?))?;
    lower_bind(alloc, values, Shape::Tuple(shapes), body)
}

/// Each part is bound.
fn bound_shapes(alloc: Global, exprs: &[LoweredExpr]) -> Result<Seq<Shape>, AllocError>
    ensures { IfOk result (λ shapes. shapes ≡ map (λ (e : LoweredPart). bound_shape) exprs.now) }
{
    let mut shapes = Vec::new(alloc);
    'exprs: for _ in exprs {
        shapes.push(Shape::Bound)?;
    }
    Ok(Seq::from_vec(shapes))
}

/// The values that are bound, and the last of them until there are so many.
fn filled_slots(
    alloc: Global,
    count: u64,
    size: u128,
    exprs: &[LoweredExpr],
) -> Result<Seq<CoreExpr>, AllocError>
    ensures { IfOk result (λ slots. slots ≡ the_filled count size exprs.now) }
{
    let mut slots = slots_from(alloc, count, exprs)?;
    let last = slot_from(count, exprs.len().saturating_sub(1))?;
    let more = size.saturating_sub(exprs.len() as u128);
    push_slots(&mut slots, last, more)?;
    Ok(slots)
}

/// The values that are bound from this number on, one for each of these.
fn slots_from(alloc: Global, first: u64, exprs: &[LoweredExpr]) -> Result<Seq<CoreExpr>, AllocError>
    ensures { IfOk result (λ slots. slots ≡ the_slots first exprs.now) }
{
    let mut slots = Vec::new(alloc);
    'exprs: for i in 0..exprs.len() {
        slots.push(CoreExpr::Slot(slot_from(first, i)?))?;
    }
    Ok(Seq::from_vec(slots))
}

/// The number of the value so many behind this one.
fn slot_from(first: u64, behind: usize) -> Result<u64, AllocError>
    ensures { IfOk result (λ n. n ≡ first + behind) }
{
    match first.checked_add(behind as u64) {
        Some(number) => Ok(number),
        None => Err(AllocError),
    }
}

/// Puts a bound value behind the others, so many times.
fn push_slots(slots: &mut Seq<CoreExpr>, slot: u64, times: u128) -> Result<(), AllocError>
    ensures { OnOk result (slots.new ≡ slots.old ++ repeated times (slot_core slot)) }
{
    'times: for _ in 0..times {
        slots.push(CoreExpr::Slot(slot))?;
    }
    Ok(())
}
