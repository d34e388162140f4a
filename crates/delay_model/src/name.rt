//! How texts spell operations.

ghost use Rattle.std.specs.Prelude.{◌≡◌};
ghost use Rattle.delay_model.specs.Names.{binary_name, unary_name, compare_name, shift_name, reduce_name, extend_name, name_of, op_named};

use crate::op::{Binary, Compare, Extend, Op, Reduce, Shift, Unary};

impl Op {
    /// Its name, as in `add`.
    pub fn name(self) -> &'static str
        ensures { result.now ≡ name_of self }
    {
        match self {
            Op::Binary(op) => op.name(),
            Op::Unary(op) => op.name(),
            Op::Compare(op) => op.name(),
            Op::Shift(op) => op.name(),
            Op::Reduce(op) => op.name(),
            Op::Extend(op) => op.name(),
            Op::Concat => "concat",
            Op::BitSlice => "bit_slice",
            Op::DynamicBitSlice => "dynamic_bit_slice",
            Op::Sel => "sel",
            Op::Tuple => "tuple",
            Op::Array => "array",
            Op::TupleIndex => "tuple_index",
            Op::ArrayIndex => "array_index",
            Op::ArrayUpdate => "array_update",
            Op::Literal => "literal",
            Op::AfterAll => "after_all",
            Op::Receive => "receive",
            Op::Send => "send",
        }
    }

    /// The operation of this name.
    pub fn named(word: &str) -> Option<Op>
        ensures { result ≡ op_named word.now }
    {
        Op::ALL.iter().copied().find(|op| op.name() == word)
    }
}

impl Binary {
    fn name(self) -> &'static str
        ensures { result.now ≡ binary_name self }
    {
        match self {
            Binary::Add => "add",
            Binary::Sub => "sub",
            Binary::Umul => "umul",
            Binary::Udiv => "udiv",
            Binary::Umod => "umod",
            Binary::And => "and",
            Binary::Or => "or",
            Binary::Xor => "xor",
        }
    }
}

impl Unary {
    fn name(self) -> &'static str
        ensures { result.now ≡ unary_name self }
    {
        match self {
            Unary::Not => "not",
            Unary::Neg => "neg",
            Unary::Reverse => "reverse",
        }
    }
}

impl Compare {
    fn name(self) -> &'static str
        ensures { result.now ≡ compare_name self }
    {
        match self {
            Compare::Eq => "eq",
            Compare::Ne => "ne",
            Compare::Ult => "ult",
            Compare::Ule => "ule",
            Compare::Ugt => "ugt",
            Compare::Uge => "uge",
            Compare::Slt => "slt",
            Compare::Sle => "sle",
            Compare::Sgt => "sgt",
            Compare::Sge => "sge",
        }
    }
}

impl Shift {
    fn name(self) -> &'static str
        ensures { result.now ≡ shift_name self }
    {
        match self {
            Shift::Shll => "shll",
            Shift::Shrl => "shrl",
            Shift::Shra => "shra",
        }
    }
}

impl Reduce {
    fn name(self) -> &'static str
        ensures { result.now ≡ reduce_name self }
    {
        match self {
            Reduce::And => "and_reduce",
            Reduce::Or => "or_reduce",
            Reduce::Xor => "xor_reduce",
        }
    }
}

impl Extend {
    fn name(self) -> &'static str
        ensures { result.now ≡ extend_name self }
    {
        match self {
            Extend::Zero => "zero_ext",
            Extend::Sign => "sign_ext",
        }
    }
}
