//! The constants that write values.

ghost use Rattle.std.specs.Prelude.{◌≡◌, map, IfOk};
ghost use Rattle.pass_fold.specs.Constants.{constant_of};

use ir_tree::Constant;
use std::alloc::{AllocError, Global};
use xb_value::{Seq, Value};

/// The constant that writes the value.
#[cycle(constant_of)]
pub fn constant_of(alloc: Global, value: &Value) -> Result<Constant, AllocError>
    ensures { IfOk result (λ c. c ≡ constant_of value.now) }
{
    match value {
        Value::Bits(bits) => Ok(Constant::Number(bits.value())),
        Value::Tuple(parts) => Ok(Constant::Tuple(constants_of(alloc, parts.as_slice())?)),
        Value::Array(parts) => Ok(Constant::Array(constants_of(alloc, parts.as_slice())?)),
    }
}

#[cycle(constant_of)]
fn constants_of(alloc: Global, parts: &[Value]) -> Result<Seq<Constant>, AllocError>
    ensures { IfOk result (λ cs. cs ≡ map constant_of parts.now) }
{
    let mut constants = Vec::new(alloc);
    'parts: for part in parts {
        constants.push(constant_of(alloc, part)?)?;
    }
    Ok(Seq::from_vec(constants))
}
