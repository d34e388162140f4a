//! The types of tuples and arrays, and of what stands in them.

ghost use Rattle.std.specs.Prelude.{◌≡◌, ◌==◌, slice_get, IfOk, IfSome, OnOk, map};
ghost use Rattle.dslx_meaning.specs.Lists.{and_then, where_true, with_both};
ghost use Rattle.dslx_core.specs.Types.Typing.{Elements, bits_width, elements, elements_alike, elements_of, if_alike, parts_of_tuple};
ghost use Rattle.ir_lower_nodes.specs.Exprs.NodeTypes.{if_node};

use crate::types::limits::within;
use crate::types::literals::array_type;
use crate::types::stop::Stop;
use crate::types::words::width_of;
use std::alloc::Global;
use xb_value::{Boxed, Seq, Ty};

pub(crate) fn tuple(alloc: Global, types: Vec<Ty>) -> Result<Ty, Stop>
    ensures { IfOk result (λ t. if_node (Some (Ty.Tuple types.items)) ≡ Some t) }
{
    within(alloc, Ty::Tuple(Seq::from_vec(types)))
}

pub(crate) fn array(alloc: Global, types: &[Ty]) -> Result<Ty, Stop>
    ensures { IfOk result (λ t. if_node (elements_alike (map Some types.now)) ≡ Some t) }
{
    let ty = array_type(alloc, types)?;
    within(alloc, ty)
}

/// The part of a tuple.
pub(crate) fn element(alloc: Global, number: u64, tuple: &Ty) -> Result<Ty, Stop>
    ensures { IfOk result (λ t. if_node (and_then (parts_of_tuple tuple.now) (λ ts. slice_get ts number)) ≡ Some t) }
{
    let ty = part_of(alloc, number, tuple)?;
    within(alloc, ty)
}

fn part_of(alloc: Global, number: u64, tuple: &Ty) -> Result<Ty, Stop>
    ensures { IfOk result (λ t. and_then (parts_of_tuple tuple.now) (λ ts. slice_get ts number) ≡ Some t) }
{
    match tuple {
        Ty::Tuple(parts) => type_at(alloc, parts.as_slice(), number),
        _ => Err(Stop::Untyped),
    }
}

/// A copy of the type of this number.
pub(crate) fn type_at(alloc: Global, types: &[Ty], number: u64) -> Result<Ty, Stop>
    ensures { IfOk result (λ t. slice_get types.now number ≡ Some t) }
{
    let place = number as usize;
    if place < types.len() {
        Ok(types[place].copy(alloc)?)
    } else {
        Err(Stop::Untyped)
    }
}

/// What an array of at least one element is made of, and of how many.
fn elements_of(array: &Ty) -> Option<(&Ty, u64)>
    ensures { IfSome result (λ both. elements_of array.now ≡ Some (elements both.0.now both.1)) }
{
    match array {
        Ty::Array(element, count) => if 0 < *count {
            Some((element.get(), *count))
        } else {
            None
        },
        _ => None,
    }
}

pub(crate) fn index(alloc: Global, array: &Ty, index: &Ty) -> Result<Ty, Stop>
    ensures { IfOk result (λ t. if_node (with_both (elements_of array.now) (bits_width index.now) (λ (a : Elements) w. Some a.element)) ≡ Some t) }
{
    width_of(index)?;
    match elements_of(array) {
        Some((element, _)) => copied(alloc, element),
        None => Err(Stop::Untyped),
    }
}

/// A copy of a type, if a node may have it.
pub(crate) fn copied(alloc: Global, ty: &Ty) -> Result<Ty, Stop>
    ensures { IfOk result (λ t. if_node (Some ty.now) ≡ Some t) }
{
    within(alloc, ty.copy(alloc)?)
}

pub(crate) fn update(alloc: Global, array: &Ty, index: &Ty, value: &Ty) -> Result<Ty, Stop>
    ensures { IfOk result (λ t. if_node (with_both (elements_of array.now) (bits_width index.now) (λ (a : Elements) w. and_then (if_alike a.element (Some value.now)) (λ u. Some (Ty.Array a.element a.count)))) ≡ Some t) }
{
    width_of(index)?;
    match elements_of(array) {
        Some((element, count)) => array_with(alloc, element, count, value),
        None => Err(Stop::Untyped),
    }
}

/// An array of so many elements, one of which may be of the type of this value.
fn array_with(alloc: Global, element: &Ty, count: u64, value: &Ty) -> Result<Ty, Stop>
    ensures { IfOk result (λ t. if_node (and_then (if_alike element.now (Some value.now)) (λ u. Some (Ty.Array element.now count))) ≡ Some t) }
{
    if element.is(value) {
        let element = Boxed::new(alloc, element.copy(alloc)?)?;
        within(alloc, Ty::Array(element, count))
    } else {
        Err(Stop::Untyped)
    }
}

/// The first type, where the other one is the same.
pub(crate) fn alike(first: Ty, other: &Ty) -> Result<Ty, Stop>
    ensures { IfOk result (λ t. if_alike first (Some other.now) ≡ Some t) }
{
    if first.is(other) {
        Ok(first)
    } else {
        Err(Stop::Untyped)
    }
}

/// The type of a choice by a bit.
pub(crate) fn choice(alloc: Global, test: &Ty, yes: Ty, no: &Ty) -> Result<Ty, Stop>
    ensures { IfOk result (λ t. if_node (and_then (bits_width test.now) (λ w. where_true (w == 1) (if_alike yes (Some no.now)))) ≡ Some t) }
{
    is_bit(test)?;
    let ty = alike(yes, no)?;
    within(alloc, ty)
}

/// It is one bit.
pub(crate) fn is_bit(ty: &Ty) -> Result<(), Stop>
    ensures { OnOk result (bits_width ty.now ≡ Some 1) }
{
    if width_of(ty)? == 1 {
        Ok(())
    } else {
        Err(Stop::Untyped)
    }
}
