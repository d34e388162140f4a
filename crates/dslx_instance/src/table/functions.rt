//! What the instances that are done are in a checked text.

ghost use Rattle.std.specs.Prelude.{◌≡◌, IfOk, map};
ghost use Rattle.dslx_instance.specs.Table.Keys.{function_made};

use crate::table::key::InstanceKey;
use dslx_core::Function;
use dslx_core::lowering::LoweredFunction;
use indexmap::map::IntoValues;
use std::alloc::{AllocError, Global};
use xb_value::Seq;

/// The functions of a checked text that lowered ones are, in order.
pub(crate) fn functions_of(
    alloc: Global,
    lowered: IntoValues<InstanceKey, LoweredFunction>,
) -> Result<Seq<Function>, AllocError>
    ensures { IfOk result (λ functions. functions ≡ map function_made lowered) }
{
    let mut functions = Vec::new(alloc);
    'lowered: for function in lowered {
        functions.push(function_of(function))?;
    }
    Ok(Seq::from_vec(functions))
}

/// A lowered function, without the types of its arguments.
fn function_of(lowered: LoweredFunction) -> Function
    ensures { result ≡ function_made lowered }
{
    Function {
        arity: lowered.arguments.len() as u64,
        body: lowered.body,
    }
}
