ghost use Rattle.std.specs.Prelude.{◌≡◌, IfOk, Some};
ghost use Rattle.dslx_meaning.specs.Lists.{and_then};
ghost use Rattle.dslx_interp.specs.Eval.Found.{plain_found};
ghost use Rattle.dslx_core.specs.CoreValues.{core_value};
ghost use Rattle.dslx_core.specs.Designs.{functions_from, no_function};

use crate::eval::direct::value_in;
use dslx_core::{CoreExpr, Function};
use std::alloc::{AllocError, Global};
use xb_value::Value;

/// How many expressions and calls may stand open one in another before the machine takes over. A level takes one to two kilobytes of the
/// processor's stack.
const MOST_LEVELS: u32 = 64;

/// A value that was found, and what is bound there.
#[derive(Drop)]
pub struct Found {
    pub value: Value,
    pub bound: Vec<Value>,
}

/// The value of an expression over these bound values, which are handed back with it, unless it has none. `functions` are those that
/// it may call, each of which calls only those before it.
///
/// Its cost is that of the expressions that it meets, in each turn of a loop anew: what is only read isn't copied.
pub fn value_of(
    alloc: Global,
    functions: &[Function],
    expr: &CoreExpr,
    bound: Vec<Value>,
) -> Result<Option<Found>, AllocError>
    ensures { IfOk result (λ o. plain_found o ≡ and_then (core_value expr.now (functions_from 0 functions.now no_function) bound.items) (λ v. Some (v, bound.items))) }
{
    let mut bound = bound;
    match value_in(alloc, functions, MOST_LEVELS, expr, &mut bound)? {
        Some(value) => Ok(Some(Found { value, bound })),
        None => Ok(None),
    }
}
