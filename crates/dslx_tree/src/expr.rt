use crate::block::Block;
use crate::ident::Ident;
use crate::operator::{Binary, Prefix};
use crate::pattern::Pattern;
use crate::type_expr::TypeExpr;
use base::texts::Name;
use xb_span::Span;
use xb_value::{Boxed, Seq};

/// An expression.
#[cycle(tree)]
#[derive(Drop)]
pub struct Expr {
    pub span: Span,
    pub node: Node,
}

/// What an expression is.
#[cycle(tree)]
#[derive(Drop)]
pub enum Node {
    /// `42`, `u8:42` or `s8:-1`
    Number(Number),
    /// `true` or `false`
    Bool(bool),
    /// `[a, b]`, `T:[a, b]` or `T:[a, b, ...]`: the type, the elements, and whether the last one is repeated.
    Array(Option<Boxed<TypeExpr>>, Seq<Expr>, bool),
    /// A name that stands for a value or a channel's end.
    Name(Name),
    /// `E::A`, a member of an enum.
    Member(Ident, Ident),
    /// `f<N>(a, b)`: the name, the arguments between `<` and `>`, and those between the parentheses.
    Call(Ident, Seq<Arg>, Seq<Expr>),
    /// `(a, b)`, also `(a,)` and `()`.
    Tuple(Seq<Expr>),
    /// `S { x: a, y, ..s }`: the name, the fields, and what gives the others.
    Struct(Ident, Seq<FieldValue>, Option<Boxed<Expr>>),
    /// `{ .. }`
    Block(Boxed<Block>),
    /// `if c { a } else { b }`: what stands behind `else` is a block or an `if`.
    If(Boxed<Expr>, Boxed<Block>, Boxed<Expr>),
    /// `match e { p | q => a, .. }`
    Match(Boxed<Expr>, Seq<Arm>),
    /// `for (i, acc): T in a..b { body }(start)`
    For(Boxed<For>),
    /// `e[i]`
    Index(Boxed<Expr>, Boxed<Expr>),
    /// `e[a:b]`
    Slice(Boxed<Expr>, Boxed<Expr>, Boxed<Expr>),
    /// `e[i +: T]`
    Part(Boxed<Expr>, Boxed<Expr>, Boxed<TypeExpr>),
    /// `e.x`
    Field(Boxed<Expr>, Ident),
    /// `e.0`: the value, and the number with its span.
    Element(Boxed<Expr>, Span, u128),
    /// `-e` or `!e`
    Prefix(Prefix, Boxed<Expr>),
    /// `e as T`
    Cast(Boxed<Expr>, Boxed<TypeExpr>),
    /// `a + b`
    Binary(Binary, Boxed<Expr>, Boxed<Expr>),
}

/// A number, with its type and its sign where they are written.
#[cycle(tree)]
#[derive(Drop)]
pub struct Number {
    pub ty: Option<Boxed<TypeExpr>>,
    pub is_negative: bool,
    pub value: u128,
}

/// What stands between `<` and `>` for a parametric, or as a channel's depth. An expression stands in braces
/// there, which the span takes in.
#[cycle(tree)]
#[derive(Drop)]
pub struct Arg {
    pub span: Span,
    pub value: Expr,
}

/// A field of a struct value: `x: e`, or `x` alone.
#[cycle(tree)]
#[derive(Drop)]
pub struct FieldValue {
    pub name: Ident,
    pub value: Option<Boxed<Expr>>,
}

/// `p | q => e`
#[cycle(tree)]
#[derive(Drop)]
pub struct Arm {
    pub patterns: Seq<Pattern>,
    pub value: Expr,
}

/// A loop: `for (index, accumulator): ty in from..to { body }(start)`.
#[cycle(tree)]
#[derive(Drop)]
pub struct For {
    pub index: Pattern,
    pub accumulator: Pattern,
    pub ty: Option<Boxed<TypeExpr>>,
    pub from: Expr,
    pub to: Expr,
    pub body: Block,
    pub start: Expr,
}
