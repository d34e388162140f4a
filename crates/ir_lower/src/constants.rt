//! Values as texts write them.

ghost use Rattle.std.specs.Prelude.{◌≡◌, map, IfOk};
ghost use Rattle.ir_lower_nodes.specs.Words.Literals.{written};

use ir_tree::Constant;
use std::alloc::{AllocError, Global};
use xb_value::{Seq, Value};

/// The value as a text writes it: its numbers.
#[cycle(written)]
pub(crate) fn written(alloc: Global, value: &Value) -> Result<Constant, AllocError>
    ensures { IfOk result (λ c. c ≡ written value.now) }
{
    match value {
        Value::Bits(bits) => Ok(Constant::Number(bits.value())),
        Value::Tuple(parts) => Ok(Constant::Tuple(all_written(alloc, parts.as_slice())?)),
        Value::Array(elements) => Ok(Constant::Array(all_written(alloc, elements.as_slice())?)),
    }
}

/// Each of them.
#[cycle(written)]
fn all_written(alloc: Global, values: &[Value]) -> Result<Seq<Constant>, AllocError>
    ensures { IfOk result (λ cs. cs ≡ map written values.now) }
{
    let mut constants = Vec::new(alloc);
    'values: for value in values {
        constants.push(written(alloc, value)?)?;
    }
    Ok(Seq::from_vec(constants))
}
