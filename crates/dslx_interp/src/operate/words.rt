ghost use Rattle.std.specs.Prelude.{◌≡◌, ◌==◌, ◌+◌, ◌≤◌, nat_le};
ghost use Rattle.std.specs.Option.{option_map};
ghost use Rattle.xb_value.specs.declared.value.Value.{Bits as of_bits};
ghost use Rattle.dslx_meaning.specs.Operators.{cast_word, is_less as less};
ghost use Rattle.dslx_core.specs.CoreValues.{unary_word, binary_words, order_read, shift_read, is_signed_read, one_bit};

use dslx_core::{CoreBinary, CoreUnary, Sign};
use std::cmp::Ordering;
use xb_bits::{
    Bits, add, and, and_reduce, clz, cmp_s, cmp_u, concat, ctz, mul, neg, not, or, or_reduce, rev,
    sext, shll, shra, shrl, slice, sub, udiv, umod, xor, xor_reduce, zext,
};

/// What an operation gives for a word.
pub fn unary(op: CoreUnary, x: Bits) -> Bits
    ensures { result ≡ unary_word op x }
{
    match op {
        CoreUnary::Neg => neg(x),
        CoreUnary::Not => not(x),
        CoreUnary::Clz => clz(x),
        CoreUnary::Ctz => ctz(x),
        CoreUnary::Rev => rev(x),
        CoreUnary::AndReduce => and_reduce(x),
        CoreUnary::OrReduce => or_reduce(x),
        CoreUnary::XorReduce => xor_reduce(x),
    }
}

/// What an operation gives for two words, unless it wants words of one width and they differ, or words side by side would have
/// more than 128 bits.
pub fn binary(op: CoreBinary, x: Bits, y: Bits) -> Option<Bits>
    ensures { option_map of_bits result ≡ binary_words op x y }
{
    match op {
        CoreBinary::Concat => if fit_together(x, y) {
            Some(concat(x, y))
        } else {
            None
        },
        CoreBinary::Shl => Some(shll(x, y)),
        CoreBinary::Shr(sign) => Some(shift_right(sign, x, y)),
        CoreBinary::Mul => if same_width(x, y) {
            Some(mul(x, y))
        } else {
            None
        },
        CoreBinary::Div => if same_width(x, y) {
            Some(udiv(x, y))
        } else {
            None
        },
        CoreBinary::Rem => if same_width(x, y) {
            Some(umod(x, y))
        } else {
            None
        },
        CoreBinary::Add => if same_width(x, y) {
            Some(add(x, y))
        } else {
            None
        },
        CoreBinary::Sub => if same_width(x, y) {
            Some(sub(x, y))
        } else {
            None
        },
        CoreBinary::And => if same_width(x, y) {
            Some(and(x, y))
        } else {
            None
        },
        CoreBinary::Xor => if same_width(x, y) {
            Some(xor(x, y))
        } else {
            None
        },
        CoreBinary::Or => if same_width(x, y) {
            Some(or(x, y))
        } else {
            None
        },
        CoreBinary::Eq => if same_width(x, y) {
            Some(bit(x.value() == y.value()))
        } else {
            None
        },
        CoreBinary::Ne => if same_width(x, y) {
            Some(bit(!(x.value() == y.value())))
        } else {
            None
        },
        CoreBinary::Lt(sign) => if same_width(x, y) {
            Some(bit(is_less(sign, x, y)))
        } else {
            None
        },
        CoreBinary::Le(sign) => if same_width(x, y) {
            Some(bit(!is_less(sign, y, x)))
        } else {
            None
        },
        CoreBinary::Gt(sign) => if same_width(x, y) {
            Some(bit(is_less(sign, y, x)))
        } else {
            None
        },
        CoreBinary::Ge(sign) => if same_width(x, y) {
            Some(bit(!is_less(sign, x, y)))
        } else {
            None
        },
    }
}

/// A word cut off or made longer, by its sign where it is read as signed.
pub fn cast(sign: Sign, width: u8, x: Bits) -> Bits
    requires some_width { 1 ≤ width }
    requires most_width { width ≤ 128 }
    ensures { result ≡ cast_word (is_signed_read sign) width x }
{
    if width <= x.width() {
        return slice(x, 0, width);
    }
    match sign {
        Sign::Unsigned => zext(x, width),
        Sign::Signed => sext(x, width),
    }
}

/// Whether the two have at most 128 bits side by side.
fn fit_together(x: Bits, y: Bits) -> bool
    ensures { result ≡ nat_le (x.width + y.width) 128 }
{
    let width = u16::from(x.width()) + u16::from(y.width());
    width <= 128
}

fn same_width(x: Bits, y: Bits) -> bool
    ensures { result ≡ (x.width == y.width) }
{
    x.width() == y.width()
}

/// The word of a condition.
fn bit(holds: bool) -> Bits
    ensures { result ≡ one_bit holds }
{
    if holds {
        Bits::new(1, 1)
    } else {
        Bits::new(1, 0)
    }
}

fn shift_right(sign: Sign, x: Bits, amount: Bits) -> Bits
    ensures { result ≡ shift_read sign x amount }
{
    match sign {
        Sign::Unsigned => shrl(x, amount),
        Sign::Signed => shra(x, amount),
    }
}

/// Whether the first stands before the second.
fn is_less(sign: Sign, x: Bits, y: Bits) -> bool
    requires { x.width ≡ y.width }
    ensures { result ≡ less (order_read sign x y) }
{
    let order = match sign {
        Sign::Unsigned => cmp_u(x, y),
        Sign::Signed => cmp_s(x, y),
    };
    match order {
        Ordering::Less => true,
        Ordering::Equal => false,
        Ordering::Greater => false,
    }
}
