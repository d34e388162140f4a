use crate::expr::Expr;
use base::texts::Name;
use xb_span::Span;
use xb_value::{Boxed, Seq};

/// A written type.
#[cycle(tree)]
#[derive(Drop)]
pub struct TypeExpr {
    pub span: Span,
    pub node: TypeNode,
}

/// What a type is.
#[cycle(tree)]
#[derive(Drop)]
pub enum TypeNode {
    /// `u1` to `u128` and `s1` to `s128`: whether it is signed, and its width.
    Bits(bool, u8),
    /// `uN[e]`, `bits[e]` and `sN[e]`: whether it is signed, and what its width is.
    Wide(bool, Boxed<Expr>),
    /// `bool`
    Bool,
    /// The name of an alias, a struct or an enum.
    Name(Name),
    /// `(T, U)`, also of one and of none.
    Tuple(Seq<TypeExpr>),
    /// `T[e]`
    Array(Boxed<TypeExpr>, Boxed<Expr>),
}
