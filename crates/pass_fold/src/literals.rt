//! Operands that are literals, and their values.

ghost use Rattle.std.specs.Prelude.{◌≡◌, map, IfOk};
ghost use Rattle.std.specs.List.{list_all};
ghost use Rattle.xb_value.specs.declared.value.Value.{Tuple};
ghost use Rattle.ir_tree.specs.Constants.{constant_value};
ghost use Rattle.ir_tree.specs.Types.{ty_of};
ghost use Rattle.ir_rebuild.specs.Operands.{node_of};
ghost use Rattle.pass_fold.specs.Folds.{is_literal, is_literal_node, is_literal_op, are_folded, is_foldable, literal_value, value_by, value_in};

use delay_model::Op;
use ir_rebuild::node_of;
use ir_tree::{Attributes, Constant, IrType, Node, Operand};
use std::alloc::{AllocError, Global};
use xb_value::{Seq, Value};

/// Whether a node has operands, all of them literals. A `sel` counts for none.
pub fn is_foldable(nodes: &[Node], node: &Node) -> bool
    ensures { result ≡ is_foldable nodes.now node.now }
{
    let operands = node.operands.as_slice();
    match &node.attributes {
        Attributes::Cases(_, _) | Attributes::Value(_) | Attributes::Channel(_, _) => false,
        Attributes::Indices(index) => is_literal(nodes, *index) && are_literals(nodes, operands),
        _ => are_folded(nodes, operands),
    }
}

fn are_folded(nodes: &[Node], operands: &[Operand]) -> bool
    ensures { result ≡ are_folded nodes.now operands.now }
{
    match operands {
        [] => false,
        _ => are_literals(nodes, operands),
    }
}

fn are_literals(nodes: &[Node], operands: &[Operand]) -> bool
    ensures { result ≡ list_all (is_literal nodes.now) operands.now }
{
    operands.iter().all(|operand| is_literal(nodes, *operand))
}

fn is_literal(nodes: &[Node], operand: Operand) -> bool
    ensures { result ≡ is_literal nodes.now operand }
{
    match node_of(nodes, operand) {
        None => false,
        Some(node) => is_literal_op(node.op),
    }
}

fn is_literal_op(op: Op) -> bool
    ensures { result ≡ is_literal_op op }
{
    match op {
        Op::Literal => true,
        _ => false,
    }
}

/// The values of operands, each that of a literal.
pub fn literal_values(
    alloc: Global,
    nodes: &[Node],
    operands: &[Operand],
) -> Result<Vec<Value>, AllocError>
    ensures { IfOk result (λ vs. vs.items ≡ map (literal_value nodes.now) operands.now) }
{
    let mut values = Vec::new(alloc);
    'operands: for operand in operands {
        values.push(literal_value(alloc, nodes, *operand)?)?;
    }
    Ok(values)
}

/// The value of a literal. For another operand it is `()`.
pub fn literal_value(alloc: Global, nodes: &[Node], operand: Operand) -> Result<Value, AllocError>
    ensures { IfOk result (λ v. v ≡ literal_value nodes.now operand) }
{
    match node_of(nodes, operand) {
        None => Ok(Value::Tuple(Seq::new(alloc))),
        Some(node) => value_in(alloc, node),
    }
}

fn value_in(alloc: Global, node: &Node) -> Result<Value, AllocError>
    ensures { IfOk result (λ v. v ≡ value_in node.now) }
{
    match node.op {
        Op::Literal => value_by(alloc, &node.ty, &node.attributes),
        _ => Ok(Value::Tuple(Seq::new(alloc))),
    }
}

fn value_by(alloc: Global, ty: &IrType, attributes: &Attributes) -> Result<Value, AllocError>
    ensures { IfOk result (λ v. v ≡ value_by ty.now attributes.now) }
{
    match attributes {
        Attributes::Value(constant) => value_written(alloc, ty, constant),
        _ => Ok(Value::Tuple(Seq::new(alloc))),
    }
}

fn value_written(alloc: Global, ty: &IrType, constant: &Constant) -> Result<Value, AllocError>
    ensures { IfOk result (λ v. v ≡ constant_value (ty_of ty.now) constant.now) }
{
    let ty = ty.to_ty(alloc)?;
    constant.to_value(alloc, &ty)
}
