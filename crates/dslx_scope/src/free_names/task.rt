use dslx_tree::{Arg, Arm, Block, Expr, FieldValue, Pattern, Stmt, TypeExpr};
use xb_value::Boxed;

/// What is still to be visited.
#[derive(Drop)]
pub(crate) enum Task<'a> {
    Expr(&'a Expr),
    Exprs(&'a [Expr]),
    Args(&'a [Arg]),
    Fields(&'a [FieldValue]),
    Type(&'a TypeExpr),
    Types(&'a [TypeExpr]),
    Block(&'a Block),
    /// Statements and the last expression.
    Statements(&'a [Stmt], &'a Option<Boxed<Expr>>),
    Arms(&'a [Arm]),
    /// The types of numbers in a pattern.
    Pattern(&'a Pattern),
    Patterns(&'a [Pattern]),
    /// Binds the names of a pattern.
    Bind(&'a Pattern),
    BindAll(&'a [Pattern]),
    /// Forgets all names but the first so many.
    KeepFirst(usize),
}
