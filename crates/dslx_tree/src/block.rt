use crate::expr::Expr;
use crate::pattern::Pattern;
use crate::type_expr::TypeExpr;
use xb_span::Span;
use xb_value::{Boxed, Seq};

/// Statements and a last expression, from brace to brace.
#[cycle(tree)]
#[derive(Drop)]
pub struct Block {
    pub span: Span,
    pub statements: Seq<Stmt>,
    /// What stands behind the last statement without a `;`. Without it the block's value is `()`.
    pub value: Option<Boxed<Expr>>,
}

/// A statement of a block.
#[cycle(tree)]
#[derive(Drop)]
pub enum Stmt {
    Let(Let),
    /// `e;`
    Bare(Expr),
}

/// `let p: T = e;`, with its `;`.
#[cycle(tree)]
#[derive(Drop)]
pub struct Let {
    pub span: Span,
    pub pattern: Pattern,
    pub ty: Option<Boxed<TypeExpr>>,
    pub value: Expr,
}
