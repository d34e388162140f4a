ghost use Rattle.std.specs.Prelude.{◌≡◌, IfOk};
ghost use Rattle.ir_tree.specs.SameBehavior.{SameBehavior};
ghost use Rattle.ir_tree.specs.Rules.Verified.{IsVerified};
ghost use Rattle.ir_rebuild.specs.Kept.{AreAllKept};
ghost use Rattle.ir_rebuild.specs.Walks.{EachProcRebuildsTo, SameHead};
ghost use Rattle.pass_select.specs.Selected.{IsSelected};

use crate::selects::choice;
use ir_rebuild::{Rewrite, append, keep_all, rebuild};
use ir_tree::{IrType, Node, Operand, Package, Proc};
use std::alloc::{AllocError, Global};

/// The pass: what a select always chooses stands for it.
#[derive(Clone, Copy)]
pub struct Select;

impl Rewrite for Select {
    ghost use Rattle.ir_rebuild.specs.Kept.{AreAllKept};
    ghost use Rattle.pass_select.specs.Selected.{IsSelected};

    ghost marks = { AreAllKept };

    ghost gives = { IsSelected };

    fn kept(&self, alloc: Global, proc: &Proc) -> Result<Vec<bool>, AllocError> {
        keep_all(alloc, proc)
    }

    fn rewrite(
        &self,
        _alloc: Global,
        _state: &IrType,
        nodes: &mut Vec<Node>,
        node: Node,
    ) -> Result<Operand, AllocError> {
        match choice(nodes.as_slice(), &node) {
            Some(operand) => Ok(operand),
            None => append(nodes, node),
        }
    }
}

/// The package without selects that always choose one operand.
pub fn run(alloc: Global, ir: Package) -> Result<Package, AllocError>
    requires { IsVerified ir }
    ensures verified { IfOk result (λ new. IsVerified new) }
    ensures same { IfOk result (λ new. SameBehavior ir new) }
    ensures head { IfOk result (λ new. SameHead ir new) }
    ensures became { IfOk result (λ new. EachProcRebuildsTo AreAllKept IsSelected ir.procs new.procs) }
{
    rebuild(alloc, &Select, ir)
}
