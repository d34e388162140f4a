use crate::block::Block;
use crate::expr::Expr;
use crate::ident::Ident;
use crate::process::Proc;
use crate::type_expr::TypeExpr;
use xb_span::Span;
use xb_value::Seq;

/// A text: its items in order.
#[derive(Drop)]
pub struct Module {
    pub items: Seq<Item>,
}

/// A definition of a module, and whether `pub` stands before it.
#[derive(Drop)]
pub struct Item {
    pub is_public: bool,
    pub definition: Definition,
}

/// What a module defines. Each one's span begins with its keyword.
#[derive(Drop)]
pub enum Definition {
    Function(Function),
    Proc(Proc),
    Constant(Constant),
    Alias(Alias),
    Struct(Struct),
    Enum(Enum),
}

/// `fn f<N: u32>(x: T) -> U { .. }`
#[derive(Drop)]
pub struct Function {
    pub span: Span,
    pub name: Ident,
    pub parametrics: Seq<Parametric>,
    pub arguments: Seq<Field>,
    /// Without it the result is `()`.
    pub result: Option<TypeExpr>,
    pub body: Block,
}

/// A parametric, `N: T = { e }`.
#[derive(Drop)]
pub struct Parametric {
    pub name: Ident,
    pub ty: TypeExpr,
    pub default: Option<Expr>,
}

/// `x: T`, an argument of a function or a field of a struct.
#[derive(Drop)]
pub struct Field {
    pub name: Ident,
    pub ty: TypeExpr,
}

/// `const A: T = e;`
#[derive(Drop)]
pub struct Constant {
    pub span: Span,
    pub name: Ident,
    pub ty: Option<TypeExpr>,
    pub value: Expr,
}

/// `type A = T;`
#[derive(Drop)]
pub struct Alias {
    pub span: Span,
    pub name: Ident,
    pub ty: TypeExpr,
}

/// `struct S { x: T }`
#[derive(Drop)]
pub struct Struct {
    pub span: Span,
    pub name: Ident,
    pub fields: Seq<Field>,
}

/// `enum E: T { A = e }`
#[derive(Drop)]
pub struct Enum {
    pub span: Span,
    pub name: Ident,
    pub base: TypeExpr,
    pub members: Seq<Member>,
}

/// `A = e`
#[derive(Drop)]
pub struct Member {
    pub name: Ident,
    pub value: Expr,
}
