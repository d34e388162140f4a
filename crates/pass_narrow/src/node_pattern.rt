//! Which pattern a node has, and its replacement.

ghost use Rattle.std.specs.Prelude.{◌≡◌, ◌+◌, max};
ghost use Rattle.ir_tree.specs.NodeTypes.Types.{bits_width};
ghost use Rattle.pass_narrow.specs.Replacements.{narrower, least_width, operation_by, operation_of, is_unsigned, comparison_by, comparison_of, concat_of, element_replacement, sign_of_longer, longer_of, extension_of, slice_of_longer, slice_inside, slice_over, slice_of, slice_of_one, plain_replacement, replacement_of};

use crate::operands::{bits_width, element_of, extended, part_of, sliced, width_of};
use delay_model::{Binary, Compare, Extend, Op};
use ir_tree::{Attributes, IrType, Node, Operand};

/// What stands for a node that has a pattern.
#[derive(Clone, Copy, PartialEq, Eq)]
pub enum NodeReplacement {
    /// An operand.
    Operand(Operand),
    /// The number 0.
    Zero,
    /// The operand extended to the node's width.
    Extension(Extend, Operand),
    /// As many bits as the node has of the operand, from a place on.
    Slice(Operand, u128),
    /// Bits of the operand from a place on, fewer than the node has, with zeros before them.
    LongerSlice(Operand, u128, u128),
    /// The operation on the operands at a smaller width, with zeros before what it gives.
    Operation(Binary, Operand, Operand, u128),
    /// The comparison of the operands at a smaller width.
    Comparison(Compare, Operand, Operand, u128),
}

/// The replacement for a node that has a pattern.
pub fn replacement_for(state: &IrType, nodes: &[Node], node: &Node) -> Option<NodeReplacement>
    ensures { result ≡ replacement_of state.now nodes.now node.now }
{
    let operands = node.operands.as_slice();
    match &node.attributes {
        Attributes::None => plain_replacement(
            state,
            nodes,
            node.op,
            bits_width(&node.ty),
            operands,
        ),
        Attributes::StartAndWidth(start, width) => {
            slice_of_one(state, nodes, *start, *width, operands)
        }
        Attributes::NewBitCount(width) => match node.op {
            Op::Extend(kind) => extension_of(state, nodes, kind, *width, operands),
            _ => None,
        },
        Attributes::Index(index) => element_replacement(nodes, *index, operands),
        _ => None,
    }
}

fn plain_replacement(
    state: &IrType,
    nodes: &[Node],
    op: Op,
    width: u128,
    operands: &[Operand],
) -> Option<NodeReplacement>
    ensures { result ≡ plain_replacement state.now nodes.now op width operands.now }
{
    match op {
        Op::Binary(op) => operation_of(state, nodes, op, width, operands),
        Op::Compare(op) => comparison_of(state, nodes, op, operands),
        Op::Concat => concat_of(operands),
        _ => None,
    }
}

/// A number of bits, if it is smaller than the width.
fn narrower(bits: u128, width: u128) -> Option<u128>
    ensures { result ≡ narrower bits width }
{
    if bits < width { Some(bits) } else { None }
}

/// As many bits as a sum has.
fn sum_width(p: u128, q: u128, width: u128) -> Option<u128>
    ensures { result ≡ narrower (max p q + 1) width }
{
    let longer = p.max(q);
    if longer < width {
        narrower(longer + 1, width)
    } else {
        None
    }
}

/// As many bits as a product has.
fn product_width(p: u128, q: u128, width: u128) -> Option<u128>
    ensures { result ≡ narrower (p + q) width }
{
    if p < width && q < width - p {
        narrower(p + q, width)
    } else {
        None
    }
}

/// As many bits as the operation gives of numbers of `p` and `q` bits, if they are fewer than the width.
fn least_width(op: Binary, p: u128, q: u128, width: u128) -> Option<u128>
    ensures { result ≡ least_width op p q width }
{
    match op {
        Binary::Add => sum_width(p, q, width),
        Binary::Umul => product_width(p, q, width),
        Binary::And | Binary::Or | Binary::Xor => narrower(p.max(q), width),
        Binary::Sub | Binary::Udiv | Binary::Umod => None,
    }
}

/// An operation on two extended numbers.
fn operation_of(
    state: &IrType,
    nodes: &[Node],
    op: Binary,
    width: u128,
    operands: &[Operand],
) -> Option<NodeReplacement>
    ensures { result ≡ operation_of state.now nodes.now op width operands.now }
{
    match operands {
        [first, second] => match extended(nodes, Extend::Zero, *first) {
            None => None,
            Some(a) => match extended(nodes, Extend::Zero, *second) {
                None => None,
                Some(b) => operation_by(state, nodes, op, width, a, b),
            },
        },
        _ => None,
    }
}

fn operation_by(
    state: &IrType,
    nodes: &[Node],
    op: Binary,
    width: u128,
    a: Operand,
    b: Operand,
) -> Option<NodeReplacement>
    ensures { result ≡ operation_by state.now nodes.now op width a b }
{
    let p = width_of(state, nodes, a);
    let q = width_of(state, nodes, b);
    match least_width(op, p, q, width) {
        None => None,
        Some(least) => Some(NodeReplacement::Operation(op, a, b, least)),
    }
}

fn is_unsigned(op: Compare) -> bool
    ensures { result ≡ is_unsigned op }
{
    match op {
        Compare::Slt | Compare::Sle | Compare::Sgt | Compare::Sge => false,
        _ => true,
    }
}

/// A comparison of two extended numbers.
fn comparison_of(
    state: &IrType,
    nodes: &[Node],
    op: Compare,
    operands: &[Operand],
) -> Option<NodeReplacement>
    ensures { result ≡ comparison_of state.now nodes.now op operands.now }
{
    match operands {
        [first, second] => match extended(nodes, Extend::Zero, *first) {
            None => None,
            Some(a) => match extended(nodes, Extend::Zero, *second) {
                None => None,
                Some(b) => { comparison_by(state, nodes, op, width_of(state, nodes, *first), a, b) }
            },
        },
        _ => None,
    }
}

fn comparison_by(
    state: &IrType,
    nodes: &[Node],
    op: Compare,
    width: u128,
    a: Operand,
    b: Operand,
) -> Option<NodeReplacement>
    ensures { result ≡ comparison_by state.now nodes.now op width a b }
{
    let longer = width_of(state, nodes, a).max(width_of(state, nodes, b));
    if !is_unsigned(op) {
        return None;
    }
    match narrower(longer, width) {
        None => None,
        Some(least) => Some(NodeReplacement::Comparison(op, a, b, least)),
    }
}

/// Numbers side by side: one alone is itself.
fn concat_of(operands: &[Operand]) -> Option<NodeReplacement>
    ensures { result ≡ concat_of operands.now }
{
    match operands {
        [operand] => Some(NodeReplacement::Operand(*operand)),
        _ => None,
    }
}

/// The part of a tuple.
fn element_replacement(nodes: &[Node], index: u128, operands: &[Operand]) -> Option<NodeReplacement>
    ensures { result ≡ element_replacement nodes.now index operands.now }
{
    match operands {
        [operand] => match element_of(nodes, *operand, index) {
            None => None,
            Some(element) => Some(NodeReplacement::Operand(element)),
        },
        _ => None,
    }
}

/// An extension of an extension.
fn extension_of(
    state: &IrType,
    nodes: &[Node],
    kind: Extend,
    width: u128,
    operands: &[Operand],
) -> Option<NodeReplacement>
    ensures { result ≡ extension_of state.now nodes.now kind width operands.now }
{
    match operands {
        [operand] => {
            if width_of(state, nodes, *operand) == width {
                Some(NodeReplacement::Operand(*operand))
            } else {
                longer_of(state, nodes, kind, *operand)
            }
        }
        _ => None,
    }
}

fn longer_of(
    state: &IrType,
    nodes: &[Node],
    kind: Extend,
    operand: Operand,
) -> Option<NodeReplacement>
    ensures { result ≡ longer_of state.now nodes.now kind operand }
{
    match extended(nodes, kind, operand) {
        Some(a) => Some(NodeReplacement::Extension(kind, a)),
        None => match kind {
            Extend::Zero => None,
            Extend::Sign => sign_of_longer(state, nodes, operand),
        },
    }
}

/// The sign of a number with zeros before it is 0.
fn sign_of_longer(state: &IrType, nodes: &[Node], operand: Operand) -> Option<NodeReplacement>
    ensures { result ≡ sign_of_longer state.now nodes.now operand }
{
    match extended(nodes, Extend::Zero, operand) {
        None => None,
        Some(a) => {
            if width_of(state, nodes, a) < width_of(state, nodes, operand) {
                Some(NodeReplacement::Extension(Extend::Zero, a))
            } else {
                None
            }
        }
    }
}

fn slice_of_one(
    state: &IrType,
    nodes: &[Node],
    start: u128,
    width: u128,
    operands: &[Operand],
) -> Option<NodeReplacement>
    ensures { result ≡ slice_of_one state.now nodes.now start width operands.now }
{
    match operands {
        [operand] => slice_of(state, nodes, start, width, *operand),
        _ => None,
    }
}

/// A slice of all bits, of an extension, of a slice, or of a part of a concatenation.
pub fn slice_of(
    state: &IrType,
    nodes: &[Node],
    start: u128,
    width: u128,
    operand: Operand,
) -> Option<NodeReplacement>
    ensures { result ≡ slice_of state.now nodes.now start width operand }
{
    if width_of(state, nodes, operand) == width {
        Some(NodeReplacement::Operand(operand))
    } else {
        slice_over(state, nodes, start, width, operand)
    }
}

fn slice_over(
    state: &IrType,
    nodes: &[Node],
    start: u128,
    width: u128,
    operand: Operand,
) -> Option<NodeReplacement>
    ensures { result ≡ slice_over state.now nodes.now start width operand }
{
    match extended(nodes, Extend::Zero, operand) {
        Some(a) => {
            let own = width_of(state, nodes, a);
            if own < width_of(state, nodes, operand) {
                slice_of_longer(own, start, width, a)
            } else {
                None
            }
        }
        None => slice_inside(state, nodes, start, width, operand),
    }
}

/// A slice of `own` bits with zeros before them.
fn slice_of_longer(own: u128, start: u128, width: u128, a: Operand) -> Option<NodeReplacement>
    ensures { result ≡ slice_of_longer own start width a }
{
    if own <= start {
        Some(NodeReplacement::Zero)
    } else if width <= own - start {
        Some(NodeReplacement::Slice(a, start))
    } else {
        Some(NodeReplacement::LongerSlice(a, start, own - start))
    }
}

fn slice_inside(
    state: &IrType,
    nodes: &[Node],
    start: u128,
    width: u128,
    operand: Operand,
) -> Option<NodeReplacement>
    ensures { result ≡ slice_inside state.now nodes.now start width operand }
{
    match sliced(nodes, operand) {
        Some(part) => {
            if start <= u128::MAX - part.start {
                Some(NodeReplacement::Slice(part.operand, part.start + start))
            } else {
                // No number has so many bits.
                Some(NodeReplacement::Zero)
            }
        }
        None => match part_of(state, nodes, operand, start, width) {
            Some(part) => Some(NodeReplacement::Slice(part.operand, part.start)),
            None => None,
        },
    }
}
