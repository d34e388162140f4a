//! What the nodes that operands name show.

ghost use Rattle.std.specs.Prelude.{◌≡◌, slice_get};
ghost use Rattle.ir_tree.specs.NodeTypes.Types.{bits_width};
ghost use Rattle.pass_narrow.specs.Views.{width_in, only, same_kind, extension_by, extension_in, extended, slice_over, slice_in, sliced, part_inside, part_from, parts_in, part_of, element_in, element_of};

use delay_model::{Extend, Op};
use ir_rebuild::node_of;
use ir_tree::{Attributes, IrType, Node, Operand};

/// Bits of a number from a place on.
#[derive(Clone, Copy, PartialEq, Eq)]
pub struct Part {
    pub operand: Operand,
    pub start: u128,
}

/// The width of a type of bits.
pub fn bits_width(ty: &IrType) -> u128
    ensures { result ≡ bits_width ty.now }
{
    match ty {
        IrType::Bits(width, _) => *width,
        IrType::Token(_) => 0,
        IrType::Tuple(_, _) => 0,
    }
}

/// The width of an operand that is a number.
pub fn width_of(state: &IrType, nodes: &[Node], operand: Operand) -> u128
    ensures { result ≡ width_in state.now nodes.now operand }
{
    match operand {
        Operand::State => bits_width(state),
        Operand::Node(place) => match nodes.get(place as usize) {
            None => 0,
            Some(node) => bits_width(&node.ty),
        },
    }
}

/// What an operand extends.
pub fn extended(nodes: &[Node], kind: Extend, operand: Operand) -> Option<Operand>
    ensures { result ≡ extended nodes.now kind operand }
{
    match node_of(nodes, operand) {
        None => None,
        Some(node) => extension_in(kind, node),
    }
}

fn extension_in(kind: Extend, node: &Node) -> Option<Operand>
    ensures { result ≡ extension_in kind node.now.op node.now.operands node.now.attributes }
{
    match &node.attributes {
        Attributes::NewBitCount(_) => extension_by(kind, node.op, node.operands.as_slice()),
        _ => None,
    }
}

fn extension_by(kind: Extend, op: Op, operands: &[Operand]) -> Option<Operand>
    ensures { result ≡ extension_by kind op operands.now }
{
    match op {
        Op::Extend(own) => {
            if same_kind(kind, own) {
                only(operands)
            } else {
                None
            }
        }
        _ => None,
    }
}

fn same_kind(kind: Extend, own: Extend) -> bool
    ensures { result ≡ same_kind kind own }
{
    match kind {
        Extend::Zero => match own {
            Extend::Zero => true,
            Extend::Sign => false,
        },
        Extend::Sign => match own {
            Extend::Zero => false,
            Extend::Sign => true,
        },
    }
}

fn only(operands: &[Operand]) -> Option<Operand>
    ensures { result ≡ only operands.now }
{
    match operands {
        [operand] => Some(*operand),
        _ => None,
    }
}

/// What an operand is a slice of, and from where on.
pub fn sliced(nodes: &[Node], operand: Operand) -> Option<Part>
    ensures { result ≡ sliced nodes.now operand }
{
    match node_of(nodes, operand) {
        None => None,
        Some(node) => slice_in(node),
    }
}

fn slice_in(node: &Node) -> Option<Part>
    ensures { result ≡ slice_in node.now.op node.now.operands node.now.attributes }
{
    match &node.attributes {
        Attributes::StartAndWidth(start, _) => match node.op {
            Op::BitSlice => slice_over(*start, node.operands.as_slice()),
            _ => None,
        },
        _ => None,
    }
}

fn slice_over(start: u128, operands: &[Operand]) -> Option<Part>
    ensures { result ≡ slice_over start operands.now }
{
    match operands {
        [operand] => Some(Part {
            operand: *operand,
            start,
        }),
        _ => None,
    }
}

/// The one of the numbers side by side, `total` bits, in which `width` bits from `start` on lie, and where they begin in it.
fn part_from(
    state: &IrType,
    nodes: &[Node],
    parts: &[Operand],
    total: u128,
    start: u128,
    width: u128,
) -> Option<Part>
    ensures { result ≡ part_from state.now nodes.now parts.now total start width }
{
    let mut left = total;
    'parts: for part in parts {
        let behind = left.saturating_sub(width_of(state, nodes, *part));
        if behind <= start {
            return part_inside(*part, behind, left, start, width);
        }
        left = behind;
    }
    None
}

/// The part, the bits from `behind` to `end`, if `width` bits from `start` on lie in it.
fn part_inside(operand: Operand, behind: u128, end: u128, start: u128, width: u128) -> Option<Part>
    ensures { result ≡ part_inside operand behind end start width }
{
    if behind <= start && start <= end && width <= end - start {
        Some(Part {
            operand,
            start: start - behind,
        })
    } else {
        None
    }
}

/// The part of a concatenation in which `width` bits from `start` on lie.
pub fn part_of(
    state: &IrType,
    nodes: &[Node],
    operand: Operand,
    start: u128,
    width: u128,
) -> Option<Part>
    ensures { result ≡ part_of state.now nodes.now start width operand }
{
    match node_of(nodes, operand) {
        None => None,
        Some(node) => parts_in(state, nodes, node, start, width),
    }
}

fn parts_in(state: &IrType, nodes: &[Node], node: &Node, start: u128, width: u128) -> Option<Part>
    ensures { result ≡ parts_in state.now nodes.now start width (bits_width node.now.ty) node.now.op node.now.operands node.now.attributes }
{
    match &node.attributes {
        Attributes::None => match node.op {
            Op::Concat => part_from(
                state,
                nodes,
                node.operands.as_slice(),
                bits_width(&node.ty),
                start,
                width,
            ),
            _ => None,
        },
        _ => None,
    }
}

/// The element of a tuple.
pub fn element_of(nodes: &[Node], operand: Operand, index: u128) -> Option<Operand>
    ensures { result ≡ element_of nodes.now index operand }
{
    match node_of(nodes, operand) {
        None => None,
        Some(node) => element_in(node, index),
    }
}

fn element_in(node: &Node, index: u128) -> Option<Operand>
    ensures { result ≡ element_in index node.now.op node.now.operands node.now.attributes }
{
    match &node.attributes {
        Attributes::None => match node.op {
            Op::Tuple => element_at(node.operands.as_slice(), index),
            _ => None,
        },
        _ => None,
    }
}

fn element_at(operands: &[Operand], index: u128) -> Option<Operand>
    ensures { result ≡ slice_get operands.now index }
{
    if index < operands.len() as u128 {
        Some(operands[index as usize])
    } else {
        None
    }
}
