//! What has been built of a text.

ghost use Rattle.std.specs.Prelude.{◌≡◌};
ghost use Rattle.vlog_text.specs.Builder.Empty.{empty, no_atom, no_expr, no_simple};
ghost use Rattle.vlog_text.specs.Builder.Rules.{skip_ident, span_from, top_signal};

use crate::builder::ident::Ident;
use crate::builder::literal::no_literal;
use crate::builder::signals::Signals;
use crate::builder::tail::Tail;
use base::stacks::Stack;
use sqlite_items::Items;
use std::alloc::Global;
use vlog_tree::{
    Assignment, Atom, Binary, Declaration, Direction, Expr, Literal, Order, Port, Set, Signal,
    Simple, Storage, Unary,
};
use xb_span::Span;

/// The parts that have been built and not been used, a stack for each sort, and the finished parts of the module.
pub struct State<'a> {
    /// The span of the last token.
    pub last: Span,
    /// Where the ports, declarations and assignments begin that are open.
    pub starts: Stack<u32>,
    pub idents: Stack<Ident<'a>>,
    pub literals: Stack<Literal>,
    pub numbers: Stack<u64>,
    /// The highest bits of ranges, and None where there is no range.
    pub ranges: Stack<Option<u64>>,
    pub directions: Stack<Direction>,
    pub storages: Stack<Storage>,
    pub orders: Stack<Order>,
    pub binaries: Stack<Binary>,
    pub unaries: Stack<Unary>,
    /// How many atoms each open list has behind its first.
    pub counts: Stack<usize>,
    pub atoms: Stack<Atom>,
    pub tails: Stack<Tail>,
    pub simples: Stack<Simple>,
    pub exprs: Stack<Expr>,
    /// The sets of the branch that is open.
    pub sets: Items<Set>,
    pub set_spans: Items<Span>,
    pub signals: Signals<'a>,
    pub ports: Items<Port>,
    pub port_spans: Items<Span>,
    pub declarations: Items<Declaration>,
    pub declaration_spans: Items<Span>,
    pub assignments: Items<Assignment>,
    pub assignment_spans: Items<Span>,
    pub resets: Items<Set>,
    pub reset_spans: Items<Span>,
    pub clocks: Items<Set>,
    pub clock_spans: Items<Span>,
    pub literal_ends: Items<u32>,
}

/// Written out, so that it is proved once and not wherever one is let go.
impl<'a> Drop for State<'a> {
    fn drop(self) {
        let State {
            last: _,
            starts: _,
            idents: _,
            literals: _,
            numbers: _,
            ranges: _,
            directions: _,
            storages: _,
            orders: _,
            binaries: _,
            unaries: _,
            counts: _,
            atoms: _,
            tails: _,
            simples: _,
            exprs: _,
            sets: _,
            set_spans: _,
            signals: _,
            ports: _,
            port_spans: _,
            declarations: _,
            declaration_spans: _,
            assignments: _,
            assignment_spans: _,
            resets: _,
            reset_spans: _,
            clocks: _,
            clock_spans: _,
            literal_ends: _,
        } = self;
    }
}

pub const NOWHERE: Span = Span { from: 0, to: 0 };

impl<'a> State<'a> {
    pub fn new(alloc: Global) -> State<'a>
        ensures { result ≡ empty }
    {
        State {
            last: NOWHERE,
            starts: Stack::new(alloc),
            idents: Stack::new(alloc),
            literals: Stack::new(alloc),
            numbers: Stack::new(alloc),
            ranges: Stack::new(alloc),
            directions: Stack::new(alloc),
            storages: Stack::new(alloc),
            orders: Stack::new(alloc),
            binaries: Stack::new(alloc),
            unaries: Stack::new(alloc),
            counts: Stack::new(alloc),
            atoms: Stack::new(alloc),
            tails: Stack::new(alloc),
            simples: Stack::new(alloc),
            exprs: Stack::new(alloc),
            sets: Items::new(alloc),
            set_spans: Items::new(alloc),
            signals: Signals::new(alloc),
            ports: Items::new(alloc),
            port_spans: Items::new(alloc),
            declarations: Items::new(alloc),
            declaration_spans: Items::new(alloc),
            assignments: Items::new(alloc),
            assignment_spans: Items::new(alloc),
            resets: Items::new(alloc),
            reset_spans: Items::new(alloc),
            clocks: Items::new(alloc),
            clock_spans: Items::new(alloc),
            literal_ends: Items::new(alloc),
        }
    }

    /// From there to the end of the last token.
    pub fn span_from(&self, from: u32) -> Span
        ensures { result ≡ span_from from self.now }
    {
        Span {
            from,
            to: self.last.to,
        }
    }

    /// Takes the name on top, and gives its signal.
    pub fn pop_signal(&mut self) -> Signal
        ensures signal { result ≡ top_signal self.old }
        ensures rest { self.new ≡ skip_ident self.old }
    {
        let ident = self.idents.pop_or(Ident::none());
        self.signals.signal(ident.name())
    }
}

pub fn no_atom() -> Atom
    ensures { result ≡ no_atom }
{
    Atom::Literal(no_literal())
}

pub fn no_simple() -> Simple
    ensures { result ≡ no_simple }
{
    Simple::Atom(no_atom())
}

pub fn no_expr() -> Expr
    ensures { result ≡ no_expr }
{
    Expr::Simple(no_simple())
}
