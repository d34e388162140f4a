use xb_bits::Bits;
use xb_value::{Boxed, Seq, Value};

/// How bits are read.
#[derive(Clone, Copy, PartialEq, Eq)]
pub enum Sign {
    Unsigned,
    Signed,
}

/// An operation on one word.
#[derive(Clone, Copy, PartialEq, Eq)]
pub enum CoreUnary {
    Neg,
    Not,
    Clz,
    Ctz,
    Rev,
    AndReduce,
    OrReduce,
    XorReduce,
}

/// An operation on two words. Comparisons and shifts to the right know how the left word is read.
#[derive(Clone, Copy, PartialEq, Eq)]
pub enum CoreBinary {
    Mul,
    Div,
    Rem,
    Add,
    Sub,
    Concat,
    Shl,
    Shr(Sign),
    And,
    Xor,
    Or,
    Eq,
    Ne,
    Lt(Sign),
    Le(Sign),
    Gt(Sign),
    Ge(Sign),
}

/// An expression over the values that are bound, each named by its number: the one that was bound first is 0.
#[cycle(core_expr)]
#[derive(Drop)]
pub enum CoreExpr {
    Literal(Value),
    Slot(u64),
    Tuple(Seq<CoreExpr>),
    Array(Seq<CoreExpr>),
    Unary(CoreUnary, Boxed<CoreExpr>),
    Binary(CoreBinary, Boxed<CoreExpr>, Boxed<CoreExpr>),
    /// To so many bits, where the source is read so.
    Cast(Sign, u8, Boxed<CoreExpr>),
    /// So many bits from this one on, which are there.
    Slice(Boxed<CoreExpr>, u8, u8),
    /// So many bits from a bit on that an expression gives.
    Part(Boxed<CoreExpr>, Boxed<CoreExpr>, u8),
    /// The part of a tuple of this number.
    Element(Boxed<CoreExpr>, u64),
    Index(Boxed<CoreExpr>, Boxed<CoreExpr>),
    Update(Boxed<CoreExpr>, Boxed<CoreExpr>, Boxed<CoreExpr>),
    /// Binds the parts of the first one's value for the second.
    Bind(Boxed<CoreExpr>, Shape, Boxed<CoreExpr>),
    /// The second where the first is 1, else the third.
    Choose(Boxed<CoreExpr>, Boxed<CoreExpr>, Boxed<CoreExpr>),
    /// The first arm that fits the value, else the last one.
    Select(Boxed<CoreExpr>, Seq<Arm>),
    /// So many turns with indices from this word on: what they and the accumulated value bind, the body, the start.
    Loop(u64, Bits, Shape, Shape, Boxed<CoreExpr>, Boxed<CoreExpr>),
    /// The function of this number.
    Call(u64, Seq<CoreExpr>),
}

/// An arm: its alternatives and its value.
#[cycle(core_expr)]
#[derive(Drop)]
pub struct Arm {
    pub shapes: Seq<Shape>,
    pub value: CoreExpr,
}

/// How a value is compared and taken apart.
#[derive(Drop)]
pub enum Shape {
    /// Any value.
    Wild,
    /// Any value, which is bound.
    Bound,
    /// This value.
    Equal(Value),
    /// A tuple of as many parts.
    Tuple(Seq<Shape>),
}
