//! What a pass is.

use ir_tree::{IrType, Node, Operand, Proc};
use std::alloc::{AllocError, Global};

/// A pass: which nodes are kept, and what stands for each.
pub trait Rewrite {
    ghost use Rattle.std.specs.Prelude.{◌≡◌, true, length, List, Bool, IfOk};
    ghost use Rattle.ir_tree.specs.declared.package.Proc.{Proc};
    ghost use Rattle.ir_rebuild.specs.Built.{AreBuilt, FitsAt, Rewrites, is_plain_op};
    ghost use Rattle.ir_rebuild.specs.Kept.{AreKept, StandBefore};
    ghost use Rattle.ir_rebuild.specs.Walks.{NodeRelation};

    // What the pass says beside of the nodes of a proc that it keeps.
    ghost marks: { Proc → List Bool → Type 0 } = { λ _ _. Unit {0} };

    // What it says beside of a node and what stands for it.
    ghost gives: { NodeRelation } = { λ _ _ _ _ _. Unit {0} };

    /// For each node of a proc whether it is kept. Sites are, what the next state is, and the operands of what is kept.
    fn kept(&self, alloc: Global, proc: &Proc) -> Result<Vec<bool>, AllocError>
        requires { StandBefore proc.now }
        ensures kept { IfOk result (λ kept. AreKept proc.now kept.items) }
        ensures marked { IfOk result (λ kept. marks proc.now kept.items) };

    /// What stands for a node that would be appended to these nodes. It appends what it needs, each a plain node.
    fn rewrite(
        &self,
        alloc: Global,
        state: &IrType,
        nodes: &mut Vec<Node>,
        node: Node,
    ) -> Result<Operand, AllocError>
        requires built { AreBuilt state.now nodes.old.items }
        requires fits_at { FitsAt state.now nodes.old.items (length nodes.old.items) node }
        requires plain { is_plain_op node.op ≡ true }
        ensures rewrites { IfOk result (λ o. Rewrites state.now nodes.old.items nodes.new.items node o) }
        ensures gives { IfOk result (λ o. gives state.now nodes.old.items nodes.new.items node o) };
}
