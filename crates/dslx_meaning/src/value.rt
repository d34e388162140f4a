use base::texts::Name;
use xb_bits::Bits;
use xb_value::Seq;

/// The value of an expression. It carries the signs and the names of its type.
#[derive(Drop)]
pub enum DslxValue {
    /// Bits, and whether they are signed.
    Bits(bool, Bits),
    Tuple(Seq<DslxValue>),
    Array(Seq<DslxValue>),
    /// A struct: its name, and the names and values of its fields in order.
    Struct(Name, Seq<Name>, Seq<DslxValue>),
    /// A value of an enum: its name, and its base's sign and word.
    Enum(Name, bool, Bits),
    /// A token.
    Token,
}

/// Bits with their sign.
#[derive(Clone, Copy, PartialEq, Eq)]
pub struct SignedWord {
    pub signed: bool,
    pub word: Bits,
}

/// A number as a text writes it: whether `-` stands before it, and the value of its digits.
#[derive(Clone, Copy, PartialEq, Eq)]
pub struct UntypedLiteral {
    pub is_negative: bool,
    pub value: u128,
}
