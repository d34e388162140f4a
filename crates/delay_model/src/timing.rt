//! How long operations take.

ghost use Rattle.std.specs.Prelude.{◌≡◌, ◌≤◌};
ghost use Rattle.delay_model.specs.Delays.{delay_of, timed_by_of, binary_digits};
ghost use Rattle.delay_model.specs.declared.op.Op.TheVariants as op;

use crate::op::{Binary, Compare, Op, Unary};

/// The width by which an operation is timed.
#[derive(Clone, Copy, PartialEq, Eq)]
pub enum TimedBy {
    /// The bits of its result.
    Result,
    /// The bits of its first operand: the whole of an array.
    FirstOperand,
}

impl Op {
    /// The width by which it is timed.
    pub fn timed_by(self) -> TimedBy
        ensures { result ≡ timed_by_of self }
    {
        match self {
            Op::Binary(_) | Op::Unary(_) => TimedBy::Result,
            _ => TimedBy::FirstOperand,
        }
    }

    /// How many picoseconds it takes at this width, which is at most 32,768 bits.
    pub fn delay(self, width: u32) -> u32
        requires { width ≤ 32768 }
        ensures { result ≡ delay_of self width }
    {
        match self {
            Op::Binary(op) => op.delay(width),
            Op::Unary(Unary::Neg) => 40 + 10 * digits(width),
            Op::Unary(Unary::Not) => 20,
            Op::Compare(Compare::Eq | Compare::Ne) => 20 + 10 * digits(width),
            Op::Compare(_) => 40 + 10 * digits(width),
            Op::Sel => 40,
            Op::Shift(_) | Op::DynamicBitSlice | Op::ArrayIndex | Op::ArrayUpdate => 20
                * digits(width),
            Op::Reduce(_) => 10 * digits(width),
            _ => 0,
        }
    }
}

impl Binary {
    fn delay(self, width: u32) -> u32
        requires { width ≤ 32768 }
        ensures { result ≡ delay_of (op.Binary self) width }
    {
        match self {
            Binary::Add | Binary::Sub => 40 + 10 * digits(width),
            Binary::Umul => 80 + 40 * digits(width),
            Binary::Udiv | Binary::Umod => 100 * width,
            Binary::And | Binary::Or | Binary::Xor => 20,
        }
    }
}

/// How many binary digits a number has.
fn digits(number: u32) -> u32
    ensures exact { result ≡ binary_digits number }
    ensures few { result ≤ 32 }
{
    32 - number.leading_zeros()
}
