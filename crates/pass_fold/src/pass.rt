ghost use Rattle.std.specs.Prelude.{◌≡◌, true, length, IfOk};
ghost use Rattle.ir_tree.specs.declared.ir_type.IrType.{IrType};
ghost use Rattle.ir_tree.specs.SameBehavior.{SameBehavior};
ghost use Rattle.ir_tree.specs.Rules.Verified.{IsVerified};
ghost use Rattle.ir_rebuild.specs.Built.{AreBuilt, FitsAt, Rewrites, is_plain_op};
ghost use Rattle.ir_rebuild.specs.Kept.{AreAllKept};
ghost use Rattle.ir_rebuild.specs.Walks.{EachProcRebuildsTo, SameHead};
ghost use Rattle.pass_fold.specs.Settled.{IsFolded, literal_node};

use crate::constant::constant_of;
use crate::literals::is_foldable;
use crate::value::folded_value;
use delay_model::Op;
use ir_rebuild::{Rewrite, append, keep_all, rebuild};
use ir_tree::{Attributes, Constant, IrType, Node, Operand, Operands, Package, Proc};
use std::alloc::{AllocError, Global};

/// The pass: a literal stands for an operation on literals.
#[derive(Clone, Copy)]
pub struct Fold;

impl Rewrite for Fold {
    ghost use Rattle.ir_rebuild.specs.Kept.{AreAllKept};
    ghost use Rattle.pass_fold.specs.Settled.{IsFolded};

    ghost marks = { AreAllKept };

    ghost gives = { λ _ old new n o. IsFolded old new n o };

    fn kept(&self, alloc: Global, proc: &Proc) -> Result<Vec<bool>, AllocError> {
        keep_all(alloc, proc)
    }

    fn rewrite(
        &self,
        alloc: Global,
        _state: &IrType,
        nodes: &mut Vec<Node>,
        node: Node,
    ) -> Result<Operand, AllocError> {
        settled(alloc, nodes, node)
    }
}

/// Appends a node, or the literal of its value where its operands are literals.
pub fn settled(alloc: Global, nodes: &mut Vec<Node>, node: Node) -> Result<Operand, AllocError>
    ensures rewrites { IfOk result (λ o. (state : IrType) → AreBuilt state nodes.old.items → FitsAt state nodes.old.items (length nodes.old.items) node →
        is_plain_op node.op ≡ true → Rewrites state nodes.old.items nodes.new.items node o) }
    ensures folded { IfOk result (λ o. IsFolded nodes.old.items nodes.new.items node o) }
{
    if !is_foldable(nodes.as_slice(), &node) {
        return append(nodes, node);
    }
    let value = folded_value(alloc, nodes.as_slice(), &node)?;
    let constant = constant_of(alloc, &value)?;
    append(nodes, literal(alloc, node.ty, constant))
}

/// A literal. It gets its id where it is appended.
fn literal(alloc: Global, ty: IrType, constant: Constant) -> Node
    ensures { result ≡ literal_node ty constant }
{
    Node {
        id: 0,
        ty,
        op: Op::Literal,
        operands: Operands::new(alloc),
        attributes: Attributes::Value(constant),
    }
}

/// The package without operations on literals.
pub fn run(alloc: Global, ir: Package) -> Result<Package, AllocError>
    requires { IsVerified ir }
    ensures verified { IfOk result (λ new. IsVerified new) }
    ensures same { IfOk result (λ new. SameBehavior ir new) }
    ensures head { IfOk result (λ new. SameHead ir new) }
    ensures became { IfOk result (λ new. EachProcRebuildsTo AreAllKept (λ _ old new n o. IsFolded old new n o) ir.procs new.procs) }
{
    rebuild(alloc, &Fold, ir)
}
