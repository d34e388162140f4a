//! Nodes at the end of a list, and what stands in it.

ghost use Rattle.std.specs.Prelude.{◌≡◌, ◌∷◌, ◌++◌, [], length, IfOk};
ghost use Rattle.std.specs.Option.{option_copied};
ghost use Rattle.ir_tree.specs.declared.ir_type.IrType.{Token};
ghost use Rattle.ir_tree.specs.declared.node.Operand.TheVariants as operands;
ghost use Rattle.ir_tree.specs.Rules.Fitting.{type_in, types_behind};
ghost use Rattle.ir_rebuild.specs.Operands.{node_of};
ghost use Rattle.ir_rebuild.specs.Built.{numbered};

use ir_tree::{IrType, Node, Operand};
use std::alloc::AllocError;

/// Appends a node under the id of its index, counted from 1, and answers the operand that names it.
///
/// No list is longer than there are ids: that counts as want of memory.
pub fn append(nodes: &mut Vec<Node>, node: Node) -> Result<Operand, AllocError>
    ensures nodes { IfOk result (λ o. nodes.new.items ≡ nodes.old.items ++ numbered (length nodes.old.items) node ∷ []) }
    ensures operand { IfOk result (λ o. o ≡ operands.Node (length nodes.old.items)) }
{
    let place = nodes.len();
    if place >= 4_294_967_295 {
        return Err(AllocError);
    }
    let mut node = node;
    node.id = place as u32 + 1;
    nodes.push(node)?;
    Ok(Operand::Node(place as u32))
}

/// The node that an operand names.
pub fn node_of(nodes: &[Node], operand: Operand) -> Option<&Node>
    ensures { option_copied result ≡ node_of nodes.now operand }
{
    match operand {
        Operand::State => None,
        Operand::Node(place) => nodes.get(place as usize),
    }
}

/// The type of an operand. One that isn't there is taken for what is missing.
pub fn type_of<'a>(
    state: &'a IrType,
    nodes: &'a [Node],
    missing: &'a IrType,
    operand: Operand,
) -> &'a IrType
    requires { missing.now ≡ Token [] }
    ensures { result.now ≡ type_in (types_behind state.now nodes.now) operand }
{
    match operand {
        Operand::State => state,
        Operand::Node(place) => match nodes.get(place as usize) {
            Some(node) => &node.ty,
            None => missing,
        },
    }
}
