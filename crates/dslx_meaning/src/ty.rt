use base::texts::Name;
use xb_value::{Boxed, Seq};

/// The type of an expression.
#[derive(Drop)]
pub enum DslxType {
    /// Bits: whether they are signed, and how many.
    Bits(bool, u128),
    Tuple(Seq<DslxType>),
    /// An array: the type of its elements, and their number.
    Array(Boxed<DslxType>, u128),
    /// A struct: its name, and the names and types of its fields in order.
    Struct(Name, Seq<Name>, Seq<DslxType>),
    /// An enum: its name, and whether its base is signed and how wide it is.
    Enum(Name, bool, u128),
    /// The type of tokens, which no text writes.
    Token,
}

/// The sign and the width of bits.
#[derive(Clone, Copy, PartialEq, Eq)]
pub struct BitKind {
    pub signed: bool,
    pub width: u128,
}
