//! The types of nodes, from those of values.

ghost use Rattle.std.specs.Prelude.{◌≡◌, [], ◌∷◌, IfOk, drop, get_or};
ghost use Rattle.ir_tree.specs.declared.ir_type.IrType.{Bits, Tuple};
ghost use Rattle.ir_rebuild.specs.Putting.Types.{array_of, element_of, part_of, ir_type_of};

use crate::type_copy;
use ir_tree::IrType;
use ir_tree::node_types::parts_of;
use std::alloc::{AllocError, Global};
use xb_value::{Seq, Ty};

/// The type as IR writes it. It takes time and memory as the type is long, and recurses as deep as it is nested.
pub fn ir_type(alloc: Global, ty: &Ty) -> Result<IrType, AllocError>
    ensures { IfOk result (λ t. t ≡ ir_type_of ty.now) }
{
    match ty {
        Ty::Bits(width) => Ok(IrType::Bits(u128::from(*width), Seq::new(alloc))),
        Ty::Tuple(parts) => {
            let mut types = Vec::new(alloc);
            'parts: for part in parts.as_slice() {
                types.push(ir_type(alloc, part)?)?;
            }
            Ok(IrType::Tuple(Seq::from_vec(types), Seq::new(alloc)))
        }
        Ty::Array(element, count) => {
            let element = ir_type(alloc, element.get())?;
            array_type(alloc, element, u128::from(*count))
        }
    }
}

/// An array of so many of these.
pub(crate) fn array_type(alloc: Global, element: IrType, count: u128) -> Result<IrType, AllocError>
    ensures { IfOk result (λ t. t ≡ array_of count element) }
{
    match element {
        IrType::Bits(width, inner) => {
            Ok(IrType::Bits(width, sizes(alloc, count, inner.as_slice())?))
        }
        IrType::Token(inner) => Ok(IrType::Token(sizes(alloc, count, inner.as_slice())?)),
        IrType::Tuple(parts, inner) => {
            Ok(IrType::Tuple(parts, sizes(alloc, count, inner.as_slice())?))
        }
    }
}

/// A size, and others behind it.
fn sizes(alloc: Global, first: u128, rest: &[u128]) -> Result<Seq<u128>, AllocError>
    ensures { IfOk result (λ all. all ≡ first ∷ rest.now) }
{
    let mut all = Vec::new(alloc);
    all.push(first)?;
    all.extend_from_slice(rest)?;
    Ok(Seq::from_vec(all))
}

/// What an array of this type is made of.
pub(crate) fn element_type(alloc: Global, array: IrType) -> Result<IrType, AllocError>
    ensures { IfOk result (λ t. t ≡ element_of array) }
{
    match array {
        IrType::Bits(width, all) => Ok(IrType::Bits(width, inner(alloc, all.as_slice())?)),
        IrType::Token(all) => Ok(IrType::Token(inner(alloc, all.as_slice())?)),
        IrType::Tuple(parts, all) => Ok(IrType::Tuple(parts, inner(alloc, all.as_slice())?)),
    }
}

/// The sizes but for the outermost.
fn inner(alloc: Global, all: &[u128]) -> Result<Seq<u128>, AllocError>
    ensures { IfOk result (λ inner. inner ≡ drop 1 all.now) }
{
    match all {
        [] => Ok(Seq::new(alloc)),
        [_outermost, inner @ ..] => Seq::from_slice(alloc, inner),
    }
}

/// The part of this number of a tuple of this type; where there is none, `()`.
pub(crate) fn part_type(alloc: Global, tuple: &IrType, number: u64) -> Result<IrType, AllocError>
    ensures { IfOk result (λ t. t ≡ part_of tuple.now number) }
{
    match parts_of(tuple) {
        Some(parts) => part_among(alloc, parts, number),
        None => Ok(unit_type(alloc)),
    }
}

fn part_among(alloc: Global, parts: &[IrType], number: u64) -> Result<IrType, AllocError>
    ensures { IfOk result (λ t. t ≡ get_or parts.now number (Tuple [] [])) }
{
    match parts.get(number as usize) {
        Some(part) => type_copy(alloc, part),
        None => Ok(unit_type(alloc)),
    }
}

/// `()`
pub(crate) fn unit_type(alloc: Global) -> IrType
    ensures { result ≡ Tuple [] [] }
{
    IrType::Tuple(Seq::new(alloc), Seq::new(alloc))
}

/// The bits of so many.
pub(crate) fn bits_type(alloc: Global, width: u128) -> IrType
    ensures { result ≡ Bits width [] }
{
    IrType::Bits(width, Seq::new(alloc))
}
