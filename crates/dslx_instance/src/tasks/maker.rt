use base::texts::Name;
use dslx_meaning::DslxType;
use dslx_tree::{Arg, Binary, Expr, Prefix, TypeExpr};

/// What is made of what was made last.
#[derive(Drop)]
pub enum LastMaker<'a> {
    Prefix(Prefix),
    Binary(Binary),
    Cast(&'a TypeExpr),
    /// The bits from one bound to before another.
    Slice(&'a Expr, &'a Expr),
    /// Bits of a type.
    Part(&'a TypeExpr),
    Field(&'a Name),
    Element(u128),
    Index,
    Choice,
}

/// What is made of several expressions.
#[derive(Drop)]
pub enum PartsMaker<'a> {
    Tuple,
    Array,
    /// An array of so many of a type, the last one repeated if the text says so.
    Fill(DslxType, u128, bool),
    /// A call of this name with these parametric arguments.
    Call(&'a Name, &'a [Arg]),
}
