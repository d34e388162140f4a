use crate::expr::Number;
use crate::ident::Ident;
use base::texts::Name;
use xb_span::Span;
use xb_value::Seq;

/// What a value is compared with, or taken apart by.
#[cycle(tree)]
#[derive(Drop)]
pub struct Pattern {
    pub span: Span,
    pub shape: Shape,
}

/// What a pattern is.
#[cycle(tree)]
#[derive(Drop)]
pub enum Shape {
    /// `_`
    Wild,
    /// `true` or `false`
    Bool(bool),
    /// `T:n`; a number of a pattern has a type.
    Number(Number),
    /// A name that it binds, or the name of a constant.
    Name(Name),
    /// `E::A`, a member of an enum.
    Member(Ident, Ident),
    /// `(p, q)`, also of one and of none.
    Tuple(Seq<Pattern>),
}
