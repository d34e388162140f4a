//! What has been built of a text.

ghost use Rattle.std.specs.Prelude.{◌≡◌, drop, OnOk};
ghost use Rattle.ir_builder.specs.Empty.{empty, join};
ghost use Rattle.ir_builder.specs.Rules.{skip, start, more};

use crate::names::Names;
use crate::token::Token;
use base::stacks::Stack;
use ir_tree::rules::ProcSpans;
use ir_tree::{Attributes, Channel, Constant, Ends, IrType, Node, Operand, Operands, Proc};
use std::alloc::{AllocError, Global};
use xb_span::Span;

/// What stands behind the `=` of a node.
#[derive(Drop)]
pub struct Call {
    pub operands: Operands,
    pub attributes: Attributes,
}

/// The parts that have been built and not been used, a stack for each sort.
pub struct State<'a> {
    /// Tokens that no rule has taken.
    pub tokens: Stack<Token<'a>>,
    /// Tokens that are names.
    pub names: Stack<Token<'a>>,
    pub numbers: Stack<u128>,
    /// The ids of channels.
    pub ids: Stack<u32>,
    /// How many elements each list has.
    pub counts: Stack<usize>,
    pub types: Stack<IrType>,
    pub constants: Stack<Constant>,
    pub ends: Stack<Ends>,
    pub operands: Stack<Operand>,
    /// Predicates and defaults.
    pub options: Stack<Option<Operand>>,
    /// The numbers of the channels of sites.
    pub site_channels: Stack<u32>,
    pub calls: Stack<Call>,
    pub nodes: Stack<Node>,
    pub node_spans: Stack<Span>,
    /// The `OP.ID` of each node of the proc.
    pub node_names: Names<'a>,
    pub channels: Stack<Channel>,
    pub channel_spans: Stack<Span>,
    pub channel_names: Names<'a>,
    /// The first lines of procs, and that of the package.
    pub heads: Stack<Span>,
    pub nexts: Stack<Span>,
    pub procs: Stack<Proc>,
    pub proc_spans: Stack<ProcSpans>,
}

/// Written out, so that it is proved once and not wherever one is let go.
impl<'a> Drop for State<'a> {
    fn drop(self) {
        let State {
            tokens: _,
            names: _,
            numbers: _,
            ids: _,
            counts: _,
            types: _,
            constants: _,
            ends: _,
            operands: _,
            options: _,
            site_channels: _,
            calls: _,
            nodes: _,
            node_spans: _,
            node_names: _,
            channels: _,
            channel_spans: _,
            channel_names: _,
            heads: _,
            nexts: _,
            procs: _,
            proc_spans: _,
        } = self;
    }
}

pub const NOWHERE: Span = Span { from: 0, to: 0 };

/// From the beginning of the one to the end of the other.
pub fn join(first: Span, last: Span) -> Span
    ensures { result ≡ join first last }
{
    Span {
        from: first.from,
        to: last.to,
    }
}

impl<'a> State<'a> {
    pub fn new(alloc: Global) -> State<'a>
        ensures { result ≡ empty }
    {
        State {
            tokens: Stack::new(alloc),
            names: Stack::new(alloc),
            numbers: Stack::new(alloc),
            ids: Stack::new(alloc),
            counts: Stack::new(alloc),
            types: Stack::new(alloc),
            constants: Stack::new(alloc),
            ends: Stack::new(alloc),
            operands: Stack::new(alloc),
            options: Stack::new(alloc),
            site_channels: Stack::new(alloc),
            calls: Stack::new(alloc),
            nodes: Stack::new(alloc),
            node_spans: Stack::new(alloc),
            node_names: Names::new(alloc),
            channels: Stack::new(alloc),
            channel_spans: Stack::new(alloc),
            channel_names: Names::new(alloc),
            heads: Stack::new(alloc),
            nexts: Stack::new(alloc),
            procs: Stack::new(alloc),
            proc_spans: Stack::new(alloc),
        }
    }

    /// Takes tokens off that say nothing more.
    pub fn skip(&mut self, count: usize)
        ensures { self.new ≡ skip count self.old }
    {
        self.tokens.drop_top(count);
    }

    /// A list ends, and so far has no element.
    pub fn start(&mut self) -> Result<(), AllocError>
        ensures { OnOk result (self.new ≡ start self.old) }
    {
        self.counts.push(0)
    }

    /// The list has one element more, behind such tokens.
    pub fn more(&mut self, count: usize) -> Result<(), AllocError>
        ensures { OnOk result (self.new ≡ more count self.old) }
    {
        self.skip(count);
        let elements = self.counts.pop_or(0);
        self.counts.push(elements.saturating_add(1))
    }
}
