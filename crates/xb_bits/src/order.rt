//! The two orders of numbers.

ghost use Rattle.std.specs.Prelude.{◌≡◌};
ghost use Rattle.xb_bits.specs.Operations as op;

use crate::bits::Bits;
use crate::numbers::is_negative;
use std::cmp::Ordering;

/// The order of two numbers of one width.
pub fn cmp_u(a: Bits, b: Bits) -> Ordering
    requires { a.width ≡ b.width }
    ensures { result ≡ op.cmp_u a b }
{
    a.value.cmp(&b.value)
}

/// The order of two signed numbers of one width, by their signed values.
pub fn cmp_s(a: Bits, b: Bits) -> Ordering
    requires { a.width ≡ b.width }
    ensures { result ≡ op.cmp_s a b }
{
    match (is_negative(a.width, a.value), is_negative(b.width, b.value)) {
        (true, false) => Ordering::Less,
        (false, true) => Ordering::Greater,
        _ => a.value.cmp(&b.value),
    }
}
