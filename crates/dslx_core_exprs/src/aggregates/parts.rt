//! The core expressions and the types of parts in order.

ghost use Rattle.std.specs.Prelude.{◌≡◌, IfOk};
ghost use Rattle.dslx_core.specs.Lowering.Lowering.{cores_of as the_cores, types_of_lowered};

use dslx_core::CoreExpr;
use dslx_core::lowering::LoweredExpr;
use dslx_meaning::DslxType;
use dslx_values::copy_type;
use std::alloc::{AllocError, Global};
use xb_value::Seq;

/// The core expressions of parts.
pub fn cores_of(alloc: Global, exprs: Vec<LoweredExpr>) -> Result<Seq<CoreExpr>, AllocError>
    ensures { IfOk result (λ cores. cores ≡ the_cores exprs.items) }
{
    let mut cores = Vec::new(alloc);
    'exprs: for expr in exprs {
        cores.push(expr.core.into_inner())?;
    }
    Ok(Seq::from_vec(cores))
}

/// The types of parts, copied.
pub fn types_of(alloc: Global, exprs: &[LoweredExpr]) -> Result<Seq<DslxType>, AllocError>
    ensures { IfOk result (λ types. types ≡ types_of_lowered exprs.now) }
{
    let mut types = Vec::new(alloc);
    'exprs: for expr in exprs {
        types.push(copy_type(alloc, &expr.ty)?)?;
    }
    Ok(Seq::from_vec(types))
}
