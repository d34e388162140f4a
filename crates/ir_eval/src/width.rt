//! How wide values are.

ghost use Rattle.std.specs.Prelude.{◌≡◌, ◌-◌, ◌^◌, ◌≤◌, min, map};
ghost use Rattle.xb_value.specs.Flat.{flat_of, joined};
ghost use Rattle.ir_tree.specs.Activations.{sent};
ghost use Rattle.ir_tree.specs.Operations.{number_where};

use std::alloc::Global;
use xb_bits::Bits;
use xb_value::{Seq, Value, flat};

/// How many bits the flat word of a value has, or 2^64 - 1 where they are more.
#[cycle(flat_width)]
pub fn flat_width(value: &Value) -> u64
    ensures { result ≡ min (flat_of value.now).width (2 ^ 64 - 1) }
{
    match value {
        Value::Bits(bits) => u64::from(bits.width()),
        Value::Tuple(parts) => joined_width(parts.as_slice()),
        Value::Array(parts) => joined_width(parts.as_slice()),
    }
}

/// The same of values side by side.
#[cycle(flat_width)]
fn joined_width(parts: &[Value]) -> u64
    ensures { result ≡ min (joined (map flat_of parts.now)).width (2 ^ 64 - 1) }
{
    let mut width = 0u64;
    'parts: for part in parts {
        width = width.saturating_add(flat_width(part));
    }
    width
}

/// The word that a send carries.
pub fn sent(value: &Value) -> Bits
    ensures { result ≡ sent value.now }
{
    let width = flat_width(value);
    if 1 <= width && width <= 128 {
        flat(value)
    } else {
        Bits::new(1, 0)
    }
}

/// The flat word of a value as a number, where it has 1 to 128 bits.
pub fn number_where(alloc: Global, value: &Value) -> Value
    ensures { result ≡ number_where (flat_of value.now) }
{
    let width = flat_width(value);
    if 1 <= width && width <= 128 {
        Value::Bits(flat(value))
    } else {
        Value::Tuple(Seq::new(alloc))
    }
}
