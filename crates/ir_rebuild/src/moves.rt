//! Nodes whose operands stand elsewhere.

ghost use Rattle.std.specs.Prelude.{◌≡◌, IfOk, map, option_map};
ghost use Rattle.ir_rebuild.specs.Moves.{moved, moved_attributes, moved_node};

use crate::copies::{constant_copy, type_copy};
use ir_tree::{Attributes, Node, Operand, Operands};
use std::alloc::{AllocError, Global};

/// What stands for an operand.
pub fn moved(places: &[Operand], operand: Operand) -> Operand
    ensures { result ≡ moved places.now operand }
{
    match operand {
        Operand::State => Operand::State,
        Operand::Node(place) => match places.get(place as usize) {
            None => Operand::State,
            Some(operand) => *operand,
        },
    }
}

fn moved_if(places: &[Operand], operand: Option<Operand>) -> Option<Operand>
    ensures { result ≡ option_map (moved places.now) operand }
{
    match operand {
        None => None,
        Some(operand) => Some(moved(places, operand)),
    }
}

fn moved_all(
    alloc: Global,
    places: &[Operand],
    operands: &[Operand],
) -> Result<Operands, AllocError>
    ensures { IfOk result (λ os. os ≡ map (moved places.now) operands.now) }
{
    let mut all = Operands::new(alloc);
    'operands: for operand in operands {
        all.push(moved(places, *operand))?;
    }
    Ok(all)
}

fn moved_attributes(
    alloc: Global,
    places: &[Operand],
    attributes: &Attributes,
) -> Result<Attributes, AllocError>
    ensures { IfOk result (λ a. a ≡ moved_attributes (moved places.now) attributes.now) }
{
    match attributes {
        Attributes::None => Ok(Attributes::None),
        Attributes::StartAndWidth(start, width) => Ok(Attributes::StartAndWidth(*start, *width)),
        Attributes::Width(width) => Ok(Attributes::Width(*width)),
        Attributes::NewBitCount(width) => Ok(Attributes::NewBitCount(*width)),
        Attributes::Cases(cases, default) => {
            let cases = moved_all(alloc, places, cases.as_slice())?;
            Ok(Attributes::Cases(cases, moved_if(places, *default)))
        }
        Attributes::Index(index) => Ok(Attributes::Index(*index)),
        Attributes::Indices(index) => Ok(Attributes::Indices(moved(places, *index))),
        Attributes::Value(constant) => Ok(Attributes::Value(constant_copy(alloc, constant)?)),
        Attributes::Channel(predicate, channel) => {
            Ok(Attributes::Channel(moved_if(places, *predicate), *channel))
        }
    }
}

/// A copy of the node, over what stands for its operands.
pub fn moved_node(alloc: Global, places: &[Operand], node: &Node) -> Result<Node, AllocError>
    ensures { IfOk result (λ n. n ≡ moved_node (moved places.now) node.now) }
{
    Ok(Node {
        id: node.id,
        ty: type_copy(alloc, &node.ty)?,
        op: node.op,
        operands: moved_all(alloc, places, node.operands.as_slice())?,
        attributes: moved_attributes(alloc, places, &node.attributes)?,
    })
}
