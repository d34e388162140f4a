//! What stands for a part that isn't there, as never happens by the grammar.

ghost use Rattle.std.specs.Prelude.{◌≡◌};
ghost use Rattle.dslx_actions.specs.Empty.{join, no_arg, no_block, no_config, no_definition, no_expr, no_ident, no_next, no_pattern, no_type};

use crate::parts::Digits;
use base::texts::Name;
use dslx_tree::{
    Alias, Arg, Block, Config, Definition, Expr, Ident, Next, Node, Pattern, Shape, TypeExpr,
    TypeNode,
};
use std::alloc::Global;
use xb_span::Span;
use xb_value::Seq;

/// The span of what isn't there.
pub const NOWHERE: Span = Span { from: 0, to: 0 };

/// The number that isn't there.
pub const NO_DIGITS: Digits = Digits {
    span: NOWHERE,
    is_negative: false,
    value: 0,
};

/// From the beginning of the one to the end of the other.
pub fn join(first: Span, last: Span) -> Span
    ensures { result ≡ join first last }
{
    Span {
        from: first.from,
        to: last.to,
    }
}

pub fn no_ident(alloc: Global) -> Ident
    ensures { result ≡ no_ident }
{
    Ident {
        span: NOWHERE,
        name: Name::from_string(String::new(alloc)),
    }
}

pub fn no_type() -> TypeExpr
    ensures { result ≡ no_type }
{
    TypeExpr {
        span: NOWHERE,
        node: TypeNode::Bool,
    }
}

pub fn no_pattern() -> Pattern
    ensures { result ≡ no_pattern }
{
    Pattern {
        span: NOWHERE,
        shape: Shape::Wild,
    }
}

pub fn no_expr() -> Expr
    ensures { result ≡ no_expr }
{
    Expr {
        span: NOWHERE,
        node: Node::Bool(false),
    }
}

pub fn no_arg() -> Arg
    ensures { result ≡ no_arg }
{
    Arg {
        span: NOWHERE,
        value: no_expr(),
    }
}

pub fn no_block(alloc: Global) -> Block
    ensures { result ≡ no_block }
{
    Block {
        span: NOWHERE,
        statements: Seq::new(alloc),
        value: None,
    }
}

pub fn no_config(alloc: Global) -> Config
    ensures { result ≡ no_config }
{
    Config {
        span: NOWHERE,
        ends: Seq::new(alloc),
        config_statements: Seq::new(alloc),
        result: Seq::new(alloc),
    }
}

pub fn no_next(alloc: Global) -> Next
    ensures { result ≡ no_next }
{
    Next {
        span: NOWHERE,
        state: no_ident(alloc),
        ty: no_type(),
        body: no_block(alloc),
    }
}

pub fn no_definition(alloc: Global) -> Definition
    ensures { result ≡ no_definition }
{
    Definition::Alias(Alias {
        span: NOWHERE,
        name: no_ident(alloc),
        ty: no_type(),
    })
}
