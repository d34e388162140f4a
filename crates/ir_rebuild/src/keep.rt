ghost use Rattle.std.specs.Prelude.{◌≡◌, true, replicate, length, IfOk};
ghost use Rattle.ir_rebuild.specs.Kept.{AreKept, AreAllKept, StandBefore};

use ir_tree::Proc;
use std::alloc::{AllocError, Global};

/// All nodes of a proc are kept.
pub fn keep_all(alloc: Global, proc: &Proc) -> Result<Vec<bool>, AllocError>
    requires { StandBefore proc.now }
    ensures kept { IfOk result (λ kept. AreKept proc.now kept.items) }
    ensures all { IfOk result (λ kept. AreAllKept proc.now kept.items) }
{
    let kept = trues(alloc, proc.nodes.len())?;
    Ok(kept)
}

fn trues(alloc: Global, count: usize) -> Result<Vec<bool>, AllocError>
    ensures { IfOk result (λ list. list.items ≡ replicate count true) }
{
    vec![in alloc; true; count]
}
