ghost use Rattle.std.specs.Prelude.{◌≡◌, slice_get, Some};
ghost use Rattle.net_core.specs.Behavior.{KeepsTypes};
ghost use Rattle.ir_tree.specs.Rules.Verified.{IsVerified};
ghost use Rattle.ir_tree.proofs.Lemmas.Rules.Typed.{keeps_types};

use crate::walk::Walk;
use ir_tree::{Package, Proc};
use net_core::{Activation, Body, Event};
use std::alloc::{AllocError, Global};
use xb_bits::Bits;
use xb_value::Value;

/// A proc of a verified package, as what its sites do. It borrows the package, and takes no memory of its own.
#[derive(Drop)]
pub struct IrBody<'a> {
    ir: &'a Package,
    number: u32,
    proc: &'a Proc,
    ghost verified: { IsVerified ir.now },
    ghost there: { slice_get ir.now.procs number ≡ Some proc.now },
}

impl<'a> IrBody<'a> {
    ghost use Rattle.std.specs.Prelude.{◌≡◌, ◌<◌, length, slice_get, Some};
    ghost use Rattle.ir_tree.specs.Rules.Verified.{IsVerified};
    ghost use Rattle.ir_tree.specs.Networks.{behaviors_of};
    ghost use Rattle.ir_eval.specs.IrBodies.{behavior_of};

    /// The proc of this number.
    pub fn new(ir: &'a Package, number: u32) -> IrBody<'a>
        requires verified { IsVerified ir.now }
        requires there { number < length ir.now.procs }
        ensures { slice_get (behaviors_of ir.now) number ≡ Some (behavior_of result) }
    {
        let procs = ir.procs.as_slice();
        IrBody {
            ir,
            number,
            proc: &procs[number as usize],
        }
    }
}

impl Body for IrBody<'_> {
    ghost use Rattle.ir_eval.specs.IrBodies.{behavior_of};
    ghost use Rattle.ir_eval.specs.Inner.Keeps.{KeepsNodes};
    ghost use Rattle.ir_eval.specs.Inner.Kept.{keeps_begin, keeps_stay};

    ghost behavior = { behavior_of };

    ghost keeps = { λ body kept. KeepsNodes body.ir.now.channels body.proc.now kept };

    /// The nodes up to the event are evaluated, once an activation.
    fn next(
        &self,
        alloc: Global,
        kept: &mut Activation,
        state: &Value,
        got: &[Bits],
        done: u32,
    ) -> Result<Event, AllocError> {
        let channels = self.ir.channels.as_slice();
        let nodes = self.proc.nodes.as_slice();
        let steps = kept.steps;
        let mut walk = Walk::resume(alloc, kept);
        'nodes: for number in steps..nodes.len() {
            match walk.step(alloc, channels, state, got, done, &nodes[number])? {
                None => {}
                Some(event) => {
                    if walk.taken <= got.len() {
                        walk.keep(kept, number);
                    }
                    return Ok(event);
                }
            }
        }
        walk.end(alloc, state, self.proc.next)
    }

    ghost begins = { λ body kept state got done nothing. keeps_begin body.ir.now.channels body.proc.now kept state got done nothing };

    ghost stays = { λ body kept state got more done later longer right. keeps_stay body.ir.now.channels body.proc.now kept state got more done later longer right };

    ghost keeps_types = { λ body. keeps_types body.ir.now body.verified body.number body.proc.now body.there };
}
