ghost use Rattle.std.specs.Prelude.{IfOk};
ghost use Rattle.ir_tree.specs.Rules.Verified.{IsVerified};
ghost use Rattle.ir_passes.specs.Optimised.{IsOptimised};

use crate::rules::AllRules;
use ir_rebuild::rebuild;
use ir_tree::Package;
use ir_tree::rules::same::same_behavior_is_an_equivalence;
use std::alloc::{AllocError, Global};

/// The package in its normal form: it means the same, each node is what the rules make of it, and no proc has more than four times
/// its nodes. One that is normal is given back, with ids that count from 1.
pub fn optimise(alloc: Global, ir: Package) -> Result<Package, AllocError>
    requires { IsVerified ir }
    ensures { IfOk result (λ new. IsOptimised ir new) }
{
    same_behavior_is_an_equivalence();
    let rewritten = rebuild(alloc, &AllRules, ir)?;
    let new = pass_dead::run(alloc, rewritten)?;
    Ok(new)
}
