/// An operation. Those that take and give the same kinds of value stand together.
#[derive(Clone, Copy, PartialEq, Eq)]
pub enum Op {
    /// Two numbers of one width, and one of that width.
    Binary(Binary),
    /// A number, and one of its width.
    Unary(Unary),
    /// Two numbers of one width, and a bit.
    Compare(Compare),
    /// A number and an amount of any width, and a number of the first one's width.
    Shift(Shift),
    /// A number, and a bit.
    Reduce(Reduce),
    /// A number, and one of as many bits or more.
    Extend(Extend),
    /// Numbers side by side, the first in the high bits.
    Concat,
    /// Bits of a number from a bit index that is written out.
    BitSlice,
    /// Bits of a number from a bit index that is an operand.
    DynamicBitSlice,
    /// One of several values, by a number.
    Sel,
    Tuple,
    Array,
    TupleIndex,
    ArrayIndex,
    ArrayUpdate,
    Literal,
    /// The token with which each activation begins.
    AfterAll,
    Receive,
    Send,
}

#[derive(Clone, Copy, PartialEq, Eq)]
pub enum Binary {
    Add,
    Sub,
    Umul,
    Udiv,
    Umod,
    And,
    Or,
    Xor,
}

#[derive(Clone, Copy, PartialEq, Eq)]
pub enum Unary {
    Not,
    Neg,
    Reverse,
}

/// Comparisons. `Slt` to `Sge` compare signed numbers.
#[derive(Clone, Copy, PartialEq, Eq)]
pub enum Compare {
    Eq,
    Ne,
    Ult,
    Ule,
    Ugt,
    Uge,
    Slt,
    Sle,
    Sgt,
    Sge,
}

#[derive(Clone, Copy, PartialEq, Eq)]
pub enum Shift {
    Shll,
    Shrl,
    Shra,
}

#[derive(Clone, Copy, PartialEq, Eq)]
pub enum Reduce {
    And,
    Or,
    Xor,
}

#[derive(Clone, Copy, PartialEq, Eq)]
pub enum Extend {
    Zero,
    Sign,
}

impl Op {
    /// All operations.
    pub const ALL: [Op; 42] = [
        Op::Binary(Binary::Add),
        Op::Binary(Binary::Sub),
        Op::Binary(Binary::Umul),
        Op::Binary(Binary::Udiv),
        Op::Binary(Binary::Umod),
        Op::Binary(Binary::And),
        Op::Binary(Binary::Or),
        Op::Binary(Binary::Xor),
        Op::Unary(Unary::Not),
        Op::Unary(Unary::Neg),
        Op::Unary(Unary::Reverse),
        Op::Compare(Compare::Eq),
        Op::Compare(Compare::Ne),
        Op::Compare(Compare::Ult),
        Op::Compare(Compare::Ule),
        Op::Compare(Compare::Ugt),
        Op::Compare(Compare::Uge),
        Op::Compare(Compare::Slt),
        Op::Compare(Compare::Sle),
        Op::Compare(Compare::Sgt),
        Op::Compare(Compare::Sge),
        Op::Shift(Shift::Shll),
        Op::Shift(Shift::Shrl),
        Op::Shift(Shift::Shra),
        Op::Concat,
        Op::BitSlice,
        Op::DynamicBitSlice,
        Op::Extend(Extend::Zero),
        Op::Extend(Extend::Sign),
        Op::Sel,
        Op::Tuple,
        Op::Array,
        Op::TupleIndex,
        Op::ArrayIndex,
        Op::ArrayUpdate,
        Op::Reduce(Reduce::And),
        Op::Reduce(Reduce::Or),
        Op::Reduce(Reduce::Xor),
        Op::Literal,
        Op::AfterAll,
        Op::Receive,
        Op::Send,
    ];
}
