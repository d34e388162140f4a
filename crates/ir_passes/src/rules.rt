//! The rules of all passes at one node.

ghost use Rattle.std.specs.Prelude.{◌≡◌, true, length, List, None, IfOk};
ghost use Rattle.ir_tree.specs.declared.ir_type.IrType.{IrType};
ghost use Rattle.ir_tree.specs.declared.node.Node.{Node};
ghost use Rattle.ir_rebuild.specs.Built.{AreBuilt, FitsAt, Rewrites, is_plain_op};
ghost use Rattle.pass_narrow.specs.Narrowing.{Narrows};
ghost use Rattle.pass_narrow.specs.KeepsNormal.{IsNarrowInside};
ghost use Rattle.pass_narrow.specs.declared.rewritten_node.RewrittenNode.TheVariants.{Extended};
ghost use Rattle.ir_rebuild.specs.Normal.Normal.{AreNormal};
ghost use Rattle.pass_select.specs.Choices.{choice_of};
ghost use Rattle.ir_passes.specs.Simplified.{settle_answer, IsGrown};
ghost use Rattle.ir_passes.specs.Simplifies.{Simplifies};
ghost use Rattle.ir_passes.specs.Undecided.{IsUndecided};

use delay_model::Extend;
use ir_rebuild::{Rewrite, keep_all};
use ir_tree::{IrType, Node, Operand, Proc};
use pass_fold::settled;
use pass_narrow::{RewrittenNode, extension, narrowed};
use pass_select::choice;
use std::alloc::{AllocError, Global};

/// The pass that tries all rules at each node, until none applies.
#[derive(Clone, Copy)]
pub struct AllRules;

impl Rewrite for AllRules {
    ghost use Rattle.ir_rebuild.specs.Kept.{AreAllKept};
    ghost use Rattle.ir_passes.specs.Simplifies.{Simplifies};

    ghost marks = { AreAllKept };

    ghost gives = { Simplifies };

    fn kept(&self, alloc: Global, proc: &Proc) -> Result<Vec<bool>, AllocError> {
        keep_all(alloc, proc)
    }

    fn rewrite(
        &self,
        alloc: Global,
        state: &IrType,
        nodes: &mut Vec<Node>,
        node: Node,
    ) -> Result<Operand, AllocError> {
        match choice(nodes.as_slice(), &node) {
            Some(operand) => Ok(operand),
            None => simplified(alloc, state, nodes, node),
        }
    }
}

/// What stands for a node that is no select of one operand.
fn simplified(
    alloc: Global,
    state: &IrType,
    nodes: &mut Vec<Node>,
    node: Node,
) -> Result<Operand, AllocError>
    requires built { AreBuilt state.now nodes.old.items }
    requires fits_at { FitsAt state.now nodes.old.items (length nodes.old.items) node }
    requires plain { is_plain_op node.op ≡ true }
    requires undecided { IsUndecided nodes.old.items node }
    ensures rewrites { IfOk result (λ o. Rewrites state.now nodes.old.items nodes.new.items node o) }
    ensures simplifies { choice_of nodes.old.items node ≡ None → IfOk result (λ o. Simplifies state.now nodes.old.items nodes.new.items node o) }
{
    match narrowed(alloc, state, nodes, node)? {
        RewrittenNode::Operand(operand) => Ok(operand),
        RewrittenNode::Node(node) => settled(alloc, nodes, node),
        RewrittenNode::Extended(node, width) => settled_longer(alloc, nodes, node, width),
    }
}

/// What stands for a node with zeros before it, up to so many bits.
fn settled_longer(
    alloc: Global,
    nodes: &mut Vec<Node>,
    node: Node,
    width: u128,
) -> Result<Operand, AllocError>
    ensures rewrites { (state : IrType) (old : List Node) (n : Node) → Narrows state old nodes.old.items n (Extended node width) →
        IfOk result (λ o. Rewrites state old nodes.new.items n o) }
    ensures normal { (state : IrType) (old : List Node) (n : Node) → Narrows state old nodes.old.items n (Extended node width) →
        (AreNormal state old → AreNormal state nodes.old.items × IsNarrowInside state nodes.old.items node) → AreNormal state old →
        IfOk result (λ o. AreNormal state nodes.new.items) }
    ensures is { IfOk result (λ o. IsGrown nodes.new.items o (settle_answer nodes.old.items (Extended node width))) }
{
    let operand = settled(alloc, nodes, node)?;
    let longer = extension(alloc, Extend::Zero, operand, width)?;
    settled(alloc, nodes, longer)
}
