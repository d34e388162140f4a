ghost use Rattle.std.specs.Prelude.{◌≡◌, IfOk};
ghost use Rattle.ir_tree.specs.SameBehavior.{SameBehavior};
ghost use Rattle.ir_tree.specs.Rules.Verified.{IsVerified};
ghost use Rattle.ir_rebuild.specs.Walks.{EachProcRebuildsTo, SameHead};
ghost use Rattle.ir_rebuild.specs.Normal.Normal.{AreLive};
ghost use Rattle.pass_dead.specs.Stays.{Stays};

use crate::marks::live;
use ir_rebuild::{Rewrite, append, rebuild};
use ir_tree::{IrType, Node, Operand, Package, Proc};
use std::alloc::{AllocError, Global};

/// The pass: what is live is kept, as it is.
#[derive(Clone, Copy)]
pub struct Dead;

impl Rewrite for Dead {
    ghost use Rattle.ir_rebuild.specs.Normal.Normal.{AreLive};
    ghost use Rattle.pass_dead.specs.Stays.{Stays};

    ghost marks = { AreLive };

    ghost gives = { Stays };

    fn kept(&self, alloc: Global, proc: &Proc) -> Result<Vec<bool>, AllocError> {
        live(alloc, proc)
    }

    fn rewrite(
        &self,
        _alloc: Global,
        _state: &IrType,
        nodes: &mut Vec<Node>,
        node: Node,
    ) -> Result<Operand, AllocError> {
        append(nodes, node)
    }
}

/// The package without its dead nodes.
pub fn run(alloc: Global, ir: Package) -> Result<Package, AllocError>
    requires { IsVerified ir }
    ensures verified { IfOk result (λ new. IsVerified new) }
    ensures same { IfOk result (λ new. SameBehavior ir new) }
    ensures head { IfOk result (λ new. SameHead ir new) }
    ensures became { IfOk result (λ new. EachProcRebuildsTo AreLive Stays ir.procs new.procs) }
{
    rebuild(alloc, &Dead, ir)
}
