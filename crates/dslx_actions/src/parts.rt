//! What has been built of a text.

ghost use Rattle.std.specs.Prelude.{◌≡◌};
ghost use Rattle.dslx_actions.specs.Empty.{empty};

use base::stacks::Stack;
use dslx_tree::{
    Arg, Arm, Binary, Block, Config, ConfigStatement, Definition, Direction, End, Expr, Field,
    FieldValue, Ident, Item, Member, Next, Parametric, Pattern, Stmt, TypeExpr,
};
use std::alloc::Global;
use xb_span::Span;

/// The parts that have been built and not been used, a stack for each sort.
pub struct SemanticStacks {
    /// The spans of tokens that say nothing but where they are.
    pub token_spans: Stack<Span>,
    pub idents: Stack<Ident>,
    pub numbers: Stack<Digits>,
    /// Whether `sN` stands there and not `uN` or `bits`; whether the last element is repeated.
    pub flags: Stack<bool>,
    pub operators: Stack<Binary>,
    pub directions: Stack<Direction>,
    /// How many elements each open list has.
    pub counts: Stack<usize>,
    pub types: Stack<TypeExpr>,
    /// Types that may be left out.
    pub annotations: Stack<Option<TypeExpr>>,
    pub patterns: Stack<Pattern>,
    /// The spans of the expressions, each with the parentheses round it.
    pub expr_spans: Stack<Span>,
    pub exprs: Stack<Expr>,
    /// Expressions that may be left out.
    pub values: Stack<Option<Expr>>,
    pub args: Stack<Arg>,
    /// Arguments that may be left out.
    pub depths: Stack<Option<Arg>>,
    pub arms: Stack<Arm>,
    pub field_values: Stack<FieldValue>,
    pub statements: Stack<Stmt>,
    pub blocks: Stack<Block>,
    pub fields: Stack<Field>,
    pub parametrics: Stack<Parametric>,
    pub members: Stack<Member>,
    pub ends: Stack<End>,
    pub config_statements: Stack<ConfigStatement>,
    pub configs: Stack<Config>,
    pub nexts: Stack<Next>,
    pub definitions: Stack<Definition>,
    pub items: Stack<Item>,
}

/// Written out, so that it is proved once and not wherever one is let go.
impl Drop for SemanticStacks {
    fn drop(self) {
        let SemanticStacks {
            token_spans: _,
            idents: _,
            numbers: _,
            flags: _,
            operators: _,
            directions: _,
            counts: _,
            types: _,
            annotations: _,
            patterns: _,
            expr_spans: _,
            exprs: _,
            values: _,
            args: _,
            depths: _,
            arms: _,
            field_values: _,
            statements: _,
            blocks: _,
            fields: _,
            parametrics: _,
            members: _,
            ends: _,
            config_statements: _,
            configs: _,
            nexts: _,
            definitions: _,
            items: _,
        } = self;
    }
}

/// A number, with the `-` before it where there is one.
#[derive(Clone, Copy, PartialEq, Eq)]
pub struct Digits {
    pub span: Span,
    pub is_negative: bool,
    pub value: u128,
}

impl SemanticStacks {
    pub fn new(alloc: Global) -> SemanticStacks
        ensures { result ≡ empty }
    {
        SemanticStacks {
            token_spans: Stack::new(alloc),
            idents: Stack::new(alloc),
            numbers: Stack::new(alloc),
            flags: Stack::new(alloc),
            operators: Stack::new(alloc),
            directions: Stack::new(alloc),
            counts: Stack::new(alloc),
            types: Stack::new(alloc),
            annotations: Stack::new(alloc),
            patterns: Stack::new(alloc),
            expr_spans: Stack::new(alloc),
            exprs: Stack::new(alloc),
            values: Stack::new(alloc),
            args: Stack::new(alloc),
            depths: Stack::new(alloc),
            arms: Stack::new(alloc),
            field_values: Stack::new(alloc),
            statements: Stack::new(alloc),
            blocks: Stack::new(alloc),
            fields: Stack::new(alloc),
            parametrics: Stack::new(alloc),
            members: Stack::new(alloc),
            ends: Stack::new(alloc),
            config_statements: Stack::new(alloc),
            configs: Stack::new(alloc),
            nexts: Stack::new(alloc),
            definitions: Stack::new(alloc),
            items: Stack::new(alloc),
        }
    }
}
