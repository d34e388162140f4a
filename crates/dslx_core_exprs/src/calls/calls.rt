//! Calls of instances.

ghost use Rattle.std.specs.Prelude.{◌≡◌, Some, IfOk};
ghost use Rattle.dslx_core.specs.declared.expr.CoreExpr.{Call as call_core};
ghost use Rattle.dslx_core.specs.Lowering.Lowering.{cores_of as the_cores, lowered};

use crate::aggregates::cores_of;
use dslx_core::CoreExpr;
use dslx_core::lowering::LoweredExpr;
use dslx_meaning::DslxType;
use std::alloc::{AllocError, Global};
use xb_value::Boxed;

/// A call of the instance of this number, which has a result of this type.
pub fn lower_call(
    alloc: Global,
    number: u64,
    exprs: Vec<LoweredExpr>,
    ty: DslxType,
) -> Result<LoweredExpr, AllocError>
    ensures { IfOk result (λ e. Some e ≡ lowered (call_core number (the_cores exprs.items)) ty) }
{
    Ok(LoweredExpr {
        core: Boxed::new(alloc, CoreExpr::Call(number, cores_of(alloc, exprs)?))?,
        ty,
    })
}
