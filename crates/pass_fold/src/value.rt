//! The value of a node whose operands have values that are known.

ghost use Rattle.std.specs.Prelude.{◌≡◌, IfOk, length};
ghost use Rattle.ir_tree.specs.NodeValues.{pure_value};
ghost use Rattle.ir_tree.specs.Constants.{no_value};
ghost use Rattle.pass_fold.specs.Folds.{places_to, shown_attributes, shown_node, shown_values, folded_value};

use crate::literals::{literal_value, literal_values};
use delay_model::Op;
use ir_eval::{Scope, pure_value};
use ir_tree::{Attributes, IrType, Node, Operand, Operands};
use std::alloc::{AllocError, Global};
use xb_value::{Seq, Value};

/// So many operands, which name the nodes of the first indices.
#[tactic(auto, using(crate::proofs::Places::places_more))]
fn places_to(alloc: Global, count: usize) -> Result<Operands, AllocError>
    ensures { IfOk result (λ os. os ≡ places_to count) }
{
    let mut places = Operands::new(alloc);
    'places: for place in 0..count {
        if place >= 4_294_967_295 {
            return Err(AllocError);
        }
        places.push(Operand::Node(place as u32))?;
    }
    Ok(places)
}

/// The attributes, where an index stands behind so many operands. What is never folded has none.
fn shown_attributes(attributes: &Attributes, count: usize) -> Result<Attributes, AllocError>
    ensures { IfOk result (λ a. a ≡ shown_attributes count attributes.now) }
{
    match attributes {
        Attributes::StartAndWidth(start, width) => Ok(Attributes::StartAndWidth(*start, *width)),
        Attributes::Width(width) => Ok(Attributes::Width(*width)),
        Attributes::NewBitCount(width) => Ok(Attributes::NewBitCount(*width)),
        Attributes::Index(index) => Ok(Attributes::Index(*index)),
        Attributes::Indices(_) => {
            if count >= 4_294_967_295 {
                return Err(AllocError);
            }
            Ok(Attributes::Indices(Operand::Node(count as u32)))
        }
        _ => Ok(Attributes::None),
    }
}

/// The node over the nodes of the first indices.
fn shown_node(alloc: Global, node: &Node) -> Result<Node, AllocError>
    ensures { IfOk result (λ n. n ≡ shown_node node.now) }
{
    let count = node.operands.as_slice().len();
    Ok(Node {
        id: 0,
        ty: IrType::Token(Seq::new(alloc)),
        op: node.op,
        operands: places_to(alloc, count)?,
        attributes: shown_attributes(&node.attributes, count)?,
    })
}

/// The value of a node over values at the first indices.
fn value_over(alloc: Global, node: &Node, values: &[Value]) -> Result<Value, AllocError>
    ensures { IfOk result (λ v. v ≡ pure_value node.now no_value values.now) }
{
    let nothing = Value::Tuple(Seq::new(alloc));
    let scope = Scope {
        state: &nothing,
        values,
        nothing: &nothing,
    };
    pure_value(alloc, &scope, node)
}

/// The values of a node's operands, each that of a literal, and behind them that of an index.
fn shown_values(alloc: Global, nodes: &[Node], node: &Node) -> Result<Vec<Value>, AllocError>
    ensures { IfOk result (λ vs. vs.items ≡ shown_values nodes.now node.now) }
{
    let mut values = literal_values(alloc, nodes, node.operands.as_slice())?;
    match &node.attributes {
        Attributes::Indices(index) => {
            values.push(literal_value(alloc, nodes, *index)?)?;
            Ok(values)
        }
        _ => Ok(values),
    }
}

/// The value of a node whose operands are literals.
pub fn folded_value(alloc: Global, nodes: &[Node], node: &Node) -> Result<Value, AllocError>
    ensures { IfOk result (λ v. v ≡ folded_value nodes.now node.now) }
{
    let values = shown_values(alloc, nodes, node)?;
    let shown = shown_node(alloc, node)?;
    value_over(alloc, &shown, values.as_slice())
}
