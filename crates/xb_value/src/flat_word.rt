//! The flat word of a value: the first element has the high bits.

ghost use Rattle.std.specs.Prelude.{◌≡◌, ◌+◌, ◌*◌, ◌^◌, ◌<◌, ◌≤◌, map};
ghost use Rattle.xb_value.specs.Flat.{flat_of, joined};
ghost use Rattle.xb_value.specs.Typing.{IsOfType};
ghost use Rattle.xb_value.specs.Unflat.{unflat_of};
ghost use Rattle.xb_value.specs.Width.{width_of};
ghost use Rattle.xb_value.specs.declared.ty.Ty.{Ty};

use crate::value::Value;
use xb_bits::{Bits, concat};

/// A number and how many bits of it are in use.
#[derive(Clone, Copy)]
struct Packed {
    width: u8,
    number: u128,
}

/// The flat word of a value that has 1 to 128 bits.
pub fn flat(value: &Value) -> Bits
    requires some_width { 1 ≤ (flat_of value.now).width }
    requires most_width { (flat_of value.now).width ≤ 128 }
    ensures value { result ≡ flat_of value.now }
    // As wide as the type of the value, and the value comes back from it.
    ensures width { (t : Ty) → IsOfType t value.now → result.width ≡ width_of t }
    ensures back { (t : Ty) → IsOfType t value.now → unflat_of t result.value ≡ value.now }
{
    let packed = pack(
        value,
        Packed {
            width: 0,
            number: 0,
        },
    );
    Bits::new(packed.width, packed.number)
}

/// The bits of the value below those that are there.
#[cycle(pack)]
fn pack(value: &Value, high: Packed) -> Packed
    requires fits { high.width + (flat_of value.now).width ≤ 128 }
    requires in_range { high.number < 2 ^ high.width }
    ensures width { result.width ≡ high.width + (flat_of value.now).width }
    ensures number { result.number ≡ high.number * 2 ^ (flat_of value.now).width + (flat_of value.now).value }
    ensures in_range { result.number < 2 ^ result.width }
{
    match value {
        Value::Bits(bits) => beside(high, *bits),
        Value::Tuple(parts) => pack_all(parts.as_slice(), high),
        Value::Array(parts) => pack_all(parts.as_slice(), high),
    }
}

/// The bits of the values, in their order, below those that are there.
#[cycle(pack)]
fn pack_all(parts: &[Value], high: Packed) -> Packed
    requires fits { high.width + (joined (map flat_of parts.now)).width ≤ 128 }
    requires in_range { high.number < 2 ^ high.width }
    ensures width { result.width ≡ high.width + (joined (map flat_of parts.now)).width }
    ensures number { result.number ≡ high.number * 2 ^ (joined (map flat_of parts.now)).width + (joined (map flat_of parts.now)).value }
    ensures in_range { result.number < 2 ^ result.width }
{
    let mut packed = high;
    'parts: for part in parts {
        packed = pack(part, packed);
    }
    packed
}

/// The bits below those that are there.
fn beside(high: Packed, low: Bits) -> Packed
    requires fits { high.width + low.width ≤ 128 }
    requires in_range { high.number < 2 ^ high.width }
    ensures width { result.width ≡ high.width + low.width }
    ensures number { result.number ≡ high.number * 2 ^ low.width + low.value }
    ensures in_range { result.number < 2 ^ result.width }
{
    let both = if high.width == 0 {
        low
    } else {
        concat(Bits::new(high.width, high.number), low)
    };
    Packed {
        width: both.width(),
        number: both.value(),
    }
}
