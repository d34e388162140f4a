//! The nodes on replacements.

ghost use Rattle.std.specs.Prelude.{◌≡◌, ◌∷◌, [], IfOk};
ghost use Rattle.pass_narrow.specs.Nodes.{bits_node, extension_node, slice_node, operation_node, comparison_node, zero_node};

use delay_model::{Binary, Compare, Extend, Op};
use ir_tree::{Attributes, Constant, IrType, Node, Operand, Operands};
use std::alloc::{AllocError, Global};
use xb_value::Seq;

/// A node of so many bits. It gets its id where it is appended.
fn bits_node(
    alloc: Global,
    width: u128,
    op: Op,
    operands: &[Operand],
    attributes: Attributes,
) -> Result<Node, AllocError>
    ensures { IfOk result (λ n. n ≡ bits_node width op operands.now attributes) }
{
    Ok(Node {
        id: 0,
        ty: IrType::Bits(width, Seq::new(alloc)),
        op,
        operands: Operands::from_slice(alloc, operands)?,
        attributes,
    })
}

/// The operand, extended to so many bits.
pub fn extension(
    alloc: Global,
    kind: Extend,
    operand: Operand,
    width: u128,
) -> Result<Node, AllocError>
    ensures { IfOk result (λ n. n ≡ extension_node kind operand width) }
{
    let attributes = Attributes::NewBitCount(width);
    bits_node(alloc, width, Op::Extend(kind), &[operand], attributes)
}

/// So many bits of the operand, from a place on.
pub fn slice(alloc: Global, operand: Operand, start: u128, width: u128) -> Result<Node, AllocError>
    ensures { IfOk result (λ n. n ≡ slice_node operand start width) }
{
    let attributes = Attributes::StartAndWidth(start, width);
    bits_node(alloc, width, Op::BitSlice, &[operand], attributes)
}

/// The operation on two operands of so many bits.
pub fn operation(
    alloc: Global,
    op: Binary,
    a: Operand,
    b: Operand,
    width: u128,
) -> Result<Node, AllocError>
    ensures { IfOk result (λ n. n ≡ operation_node op a b width) }
{
    bits_node(alloc, width, Op::Binary(op), &[a, b], Attributes::None)
}

/// The comparison of two operands.
pub fn comparison(alloc: Global, op: Compare, a: Operand, b: Operand) -> Result<Node, AllocError>
    ensures { IfOk result (λ n. n ≡ comparison_node op a b) }
{
    bits_node(alloc, 1, Op::Compare(op), &[a, b], Attributes::None)
}

/// The number 0 of so many bits.
pub fn zero(alloc: Global, width: u128) -> Result<Node, AllocError>
    ensures { IfOk result (λ n. n ≡ zero_node width) }
{
    let attributes = Attributes::Value(Constant::Number(0));
    bits_node(alloc, width, Op::Literal, &[], attributes)
}
