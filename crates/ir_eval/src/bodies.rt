//! All procs of a package as bodies.

ghost use Rattle.std.specs.Prelude.{◌≡◌, ◌<◌, ◌^◌, IfOk, length, map};
ghost use Rattle.ir_tree.specs.Networks.{behaviors_of};
ghost use Rattle.ir_tree.specs.Rules.Verified.{IsVerified};
ghost use Rattle.ir_eval.specs.IrBodies.{behavior_of};

use crate::body::IrBody;
use ir_tree::Package;
use std::alloc::{AllocError, Global};

/// The procs of a package, in their order.
pub fn bodies_of<'a>(alloc: Global, ir: &'a Package) -> Result<Vec<IrBody<'a>>, AllocError>
    requires verified { IsVerified ir.now }
    requires few { length ir.now.procs < 2 ^ 32 }
    ensures { IfOk result (λ bodies. map behavior_of bodies.items ≡ behaviors_of ir.now) }
{
    let mut bodies = Vec::new(alloc);
    'procs: for number in 0..ir.procs.len() as u32 {
        bodies.push(IrBody::new(ir, number))?;
    }
    Ok(bodies)
}
