//! What operations take.

ghost use Rattle.std.specs.Prelude.{◌≡◌};
ghost use Rattle.delay_model.specs.Signatures.{count_of, attribute_kind_of, is_met};

use crate::op::Op;

/// How many operands an operation takes.
#[derive(Clone, Copy, PartialEq, Eq)]
pub enum Count {
    Exactly(usize),
    AtLeast(usize),
}

impl Count {
    /// Whether so many operands are right.
    pub fn is_met_by(self, operands: usize) -> bool
        ensures { result ≡ is_met self operands }
    {
        match self {
            Count::Exactly(count) => operands == count,
            Count::AtLeast(count) => count <= operands,
        }
    }
}

/// Which attributes stand behind the operands of an operation, before its `id`.
#[derive(Clone, Copy, PartialEq, Eq)]
pub enum AttributeKind {
    None,
    /// `start=N, width=N`
    StartAndWidth,
    /// `width=N`
    Width,
    /// `new_bit_count=N`
    NewBitCount,
    /// `cases=[..], default=..`, the default not always
    Cases,
    /// `index=N`
    Index,
    /// `indices=[..]`, with one operand
    Indices,
    /// `value=V`
    Value,
    /// `predicate=.., channel=NAME`, the predicate not always
    Channel,
}

impl Op {
    /// How many operands it takes before its attributes.
    pub fn operand_count(self) -> Count
        ensures { result ≡ count_of self }
    {
        match self {
            Op::Binary(_) | Op::Compare(_) | Op::Shift(_) => Count::Exactly(2),
            Op::Unary(_) | Op::Reduce(_) | Op::Extend(_) => Count::Exactly(1),
            Op::BitSlice | Op::Sel | Op::TupleIndex | Op::ArrayIndex => Count::Exactly(1),
            Op::DynamicBitSlice | Op::ArrayUpdate | Op::Send => Count::Exactly(2),
            Op::Concat | Op::Array => Count::AtLeast(1),
            Op::Tuple => Count::AtLeast(0),
            Op::Literal | Op::AfterAll => Count::Exactly(0),
            Op::Receive => Count::Exactly(1),
        }
    }

    /// The attributes that it has.
    pub fn attribute_kind(self) -> AttributeKind
        ensures { result ≡ attribute_kind_of self }
    {
        match self {
            Op::Binary(_) | Op::Unary(_) | Op::Compare(_) => AttributeKind::None,
            Op::Shift(_) | Op::Reduce(_) | Op::Concat => AttributeKind::None,
            Op::Tuple | Op::Array | Op::AfterAll => AttributeKind::None,
            Op::BitSlice => AttributeKind::StartAndWidth,
            Op::DynamicBitSlice => AttributeKind::Width,
            Op::Extend(_) => AttributeKind::NewBitCount,
            Op::Sel => AttributeKind::Cases,
            Op::TupleIndex => AttributeKind::Index,
            Op::ArrayIndex | Op::ArrayUpdate => AttributeKind::Indices,
            Op::Literal => AttributeKind::Value,
            Op::Receive | Op::Send => AttributeKind::Channel,
        }
    }
}
