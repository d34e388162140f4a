use crate::block::Block;
use crate::expr::Arg;
use crate::ident::Ident;
use crate::item::Parametric;
use crate::type_expr::TypeExpr;
use xb_span::Span;
use xb_value::Seq;

/// `proc P<N: u32> { members config init next }`
#[derive(Drop)]
pub struct Proc {
    pub span: Span,
    pub name: Ident,
    pub parametrics: Seq<Parametric>,
    pub members: Seq<End>,
    pub config: Config,
    pub init: Block,
    pub next: Next,
}

/// An end of a channel with its name: a member of a proc, or a parameter of its `config`.
#[derive(Drop)]
pub struct End {
    pub name: Ident,
    /// The type of the channel's words.
    pub word: TypeExpr,
    pub direction: Direction,
}

/// What a proc does at an end of a channel.
#[derive(Clone, Copy, PartialEq, Eq)]
pub enum Direction {
    /// It receives: `chan<T> in`.
    In,
    /// It sends: `chan<T> out`.
    Out,
}

/// `config(ends) { config_statements (result) }`. Without a tuple the result is empty.
#[derive(Drop)]
pub struct Config {
    pub span: Span,
    pub ends: Seq<End>,
    pub config_statements: Seq<ConfigStatement>,
    pub result: Seq<Ident>,
}

/// What a `config` makes.
#[derive(Drop)]
pub enum ConfigStatement {
    Channel(Channel),
    Spawn(Spawn),
}

/// `let (p, c) = chan<T, depth>("name");`, with its `;`.
#[derive(Drop)]
pub struct Channel {
    pub span: Span,
    /// The end that sends, and then the one that receives.
    pub sender: Ident,
    pub receiver: Ident,
    pub word: TypeExpr,
    /// Without it the depth is 1.
    pub depth: Option<Arg>,
    /// What stands between the quotes, with the span of the quotes.
    pub name: Ident,
}

/// `spawn P<N>(a, b);`, with its `;`.
#[derive(Drop)]
pub struct Spawn {
    pub span: Span,
    pub target: Ident,
    pub arguments: Seq<Arg>,
    pub ends: Seq<Ident>,
}

/// `next(state: T) { .. }`
#[derive(Drop)]
pub struct Next {
    pub span: Span,
    pub state: Ident,
    pub ty: TypeExpr,
    pub body: Block,
}
