ghost use Rattle.std.specs.Prelude.{◌<◌, ◌≤◌, ◌^◌};

use crate::signal::Signal;
use sqlite_items::Items;

/// What a wire is driven by. Nothing nests: a larger expression is several wires.
#[derive(Drop)]
pub enum Expr {
    Simple(Simple),
    /// `$signed(a) < $signed(b)`
    SignedOrder(Order, Signal, Signal),
    /// `$signed(a) >>> k`
    SignedShift(Signal, Atom),
    /// `c ? a : b`
    Choice(Atom, Simple, Simple),
}

/// An expression that may stand in a branch of a choice.
#[derive(Drop)]
pub enum Simple {
    Atom(Atom),
    Binary(Binary, Atom, Atom),
    Unary(Unary, Atom),
    /// `x[high:low]`, both included. Bit 0 is the lowest.
    Slice { of: Signal, high: u64, low: u64 },
    /// `{a, b, ..}`, the first in the high bits.
    Concat(Items<Atom>),
}

/// A signal or a literal.
#[derive(Clone, Copy, PartialEq, Eq)]
pub enum Atom {
    Signal(Signal),
    Literal(Literal),
}

/// `N'dV`: the number `value` of `width` bits. One that is wider than 128 bits passes a limit, and its value counts for
/// nothing.
#[derive(Clone, Copy, PartialEq, Eq)]
pub struct Literal {
    pub width: u64,
    pub value: u128,
    ghost some_width: { 1 ≤ width },
    ghost in_range: { width ≤ 128 → value < 2 ^ width },
}

/// An operator between two atoms. All are unsigned.
#[derive(Clone, Copy, PartialEq, Eq)]
pub enum Binary {
    Add,
    Subtract,
    Multiply,
    Divide,
    Remainder,
    And,
    Or,
    Xor,
    Equal,
    NotEqual,
    Ordered(Order),
    ShiftLeft,
    ShiftRight,
}

/// How two numbers are to stand to one another.
#[derive(Clone, Copy, PartialEq, Eq)]
pub enum Order {
    Less,
    LessOrEqual,
    Greater,
    GreaterOrEqual,
}

/// An operator before one atom.
#[derive(Clone, Copy, PartialEq, Eq)]
pub enum Unary {
    /// `-x`
    Negate,
    /// `~x`
    Complement,
    /// `&x`: whether all bits are 1.
    AllOnes,
    /// `|x`: whether some bit is 1.
    SomeOne,
    /// `^x`: whether the number of ones is odd.
    Parity,
}
