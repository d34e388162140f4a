ghost use Rattle.std.specs.Prelude.{◌≡◌, IfOk};
ghost use Rattle.ir_tree.specs.SameBehavior.{SameBehavior};
ghost use Rattle.ir_tree.specs.Rules.Verified.{IsVerified};
ghost use Rattle.ir_rebuild.specs.Kept.{AreAllKept};
ghost use Rattle.ir_rebuild.specs.Walks.{EachProcRebuildsTo, SameHead};
ghost use Rattle.pass_narrow.specs.Narrowed.{IsNarrowed};

use crate::nodes::extension;
use crate::rewritten_node::{RewrittenNode, narrowed};
use delay_model::Extend;
use ir_rebuild::{Rewrite, append, keep_all, rebuild};
use ir_tree::{IrType, Node, Operand, Package, Proc};
use std::alloc::{AllocError, Global};

/// The pass: what narrows a node stands for it.
#[derive(Clone, Copy)]
pub struct Narrow;

impl Rewrite for Narrow {
    ghost use Rattle.ir_rebuild.specs.Kept.{AreAllKept};
    ghost use Rattle.pass_narrow.specs.Narrowed.{IsNarrowed};

    ghost marks = { AreAllKept };

    ghost gives = { IsNarrowed };

    fn kept(&self, alloc: Global, proc: &Proc) -> Result<Vec<bool>, AllocError> {
        keep_all(alloc, proc)
    }

    fn rewrite(
        &self,
        alloc: Global,
        state: &IrType,
        nodes: &mut Vec<Node>,
        node: Node,
    ) -> Result<Operand, AllocError> {
        match narrowed(alloc, state, nodes, node)? {
            RewrittenNode::Operand(operand) => Ok(operand),
            RewrittenNode::Node(node) => append(nodes, node),
            RewrittenNode::Extended(node, width) => {
                let operand = append(nodes, node)?;
                let longer = extension(alloc, Extend::Zero, operand, width)?;
                append(nodes, longer)
            }
        }
    }
}

/// The package with narrower operations.
pub fn run(alloc: Global, ir: Package) -> Result<Package, AllocError>
    requires { IsVerified ir }
    ensures verified { IfOk result (λ new. IsVerified new) }
    ensures same { IfOk result (λ new. SameBehavior ir new) }
    ensures head { IfOk result (λ new. SameHead ir new) }
    ensures became { IfOk result (λ new. EachProcRebuildsTo AreAllKept IsNarrowed ir.procs new.procs) }
{
    rebuild(alloc, &Narrow, ir)
}
