//! What the rules of lines make.

ghost use Rattle.std.specs.Prelude.{◌≡◌, ◌∷◌, drop, IfOk, OnOk};
ghost use Rattle.ir_builder.specs.Empty.{no_call};
ghost use Rattle.ir_builder.specs.Rules.{channel_id, outer, inner, channel_of, op_or, node_added, node_made, node_of, head_of, next_of, proc_made, spans_made, proc_of, package_line, token_of};

use crate::state::{Call, NOWHERE, State, join};
use crate::token::Token;
use base::texts::Name;
use delay_model::Op;
use ir_tree::rules::ProcSpans;
use ir_tree::{Attributes, Channel, Constant, Ends, IrType, Node, Operand, Operands, Proc};
use std::alloc::{AllocError, Global};
use xb_span::Span;
use xb_value::Seq;

/// The name that a token spells.
pub fn name_of(alloc: Global, token: &Token) -> Result<Name, AllocError>
    ensures { IfOk result (λ name. name ≡ token.now.bytes) }
{
    Ok(Name::from_string(String::from_str(alloc, token.text())?))
}

fn op_or(op: Option<Op>) -> Op
    ensures { result ≡ op_or op }
{
    match op {
        Some(op) => op,
        None => Op::AfterAll,
    }
}

fn no_call(alloc: Global) -> Call
    ensures { result ≡ no_call }
{
    Call {
        operands: Operands::new(alloc),
        attributes: Attributes::None,
    }
}

impl<'a> State<'a> {
    /// `id=N,`
    pub fn channel_id(&mut self) -> Result<(), AllocError>
        ensures { OnOk result (self.new ≡ channel_id self.old) }
    {
        self.skip(1);
        let token = self.tokens.pop_or(Token::nothing());
        self.skip(2);
        self.ids.push(token.small_number())
    }

    /// `input` or `output`
    pub fn outer(&mut self, ends: Ends) -> Result<(), AllocError>
        ensures { OnOk result (self.new ≡ outer ends self.old) }
    {
        self.skip(1);
        self.ends.push(ends)
    }

    /// `inner, depth=N`
    pub fn inner(&mut self) -> Result<(), AllocError>
        ensures { OnOk result (self.new ≡ inner self.old) }
    {
        self.skip(4);
        let depth = self.numbers.pop_or(0);
        self.ends.push(Ends::Inner(depth))
    }

    /// `chan NAME(TYPE, id=N, kind=..)`
    pub fn channel_of(&mut self, alloc: Global) -> Result<(), AllocError>
        ensures { OnOk result (self.new ≡ channel_of self.old) }
    {
        let close = self.tokens.pop_or(Token::nothing());
        self.skip(2);
        let word = self.tokens.pop_or(Token::nothing());
        self.channel_spans.push(join(word.span(), close.span()))?;
        let token = self.names.pop_or(Token::nothing());
        let channel = Channel {
            name: name_of(alloc, &token)?,
            id: self.ids.pop_or(0),
            ty: self.types.pop_or(IrType::Token(Seq::new(alloc))),
            ends: self.ends.pop_or(Ends::Input),
        };
        self.channels.push(channel)?;
        self.channel_names.put(alloc, token.text())
    }

    /// `proc NAME(st: TYPE, init=VALUE) {`
    pub fn head_of(&mut self) -> Result<(), AllocError>
        ensures { OnOk result (self.new ≡ head_of self.old) }
    {
        let open = self.tokens.pop_or(Token::nothing());
        self.skip(3);
        let word = self.tokens.pop_or(Token::nothing());
        self.heads.push(join(word.span(), open.span()))
    }

    /// `OP.ID: TYPE = OP(.., id=ID)`
    pub fn node_of(&mut self, alloc: Global) -> Result<(), AllocError>
        ensures { OnOk result (self.new ≡ node_of self.old) }
    {
        let close = self.tokens.pop_or(Token::nothing());
        self.skip(7);
        let name = self.tokens.pop_or(Token::nothing());
        let span = join(name.span(), close.span());
        self.add_node(alloc, name)?;
        self.node_spans.push(span)
    }

    /// Adds the node of this name.
    fn add_node(&mut self, alloc: Global, name: Token<'a>) -> Result<(), AllocError>
        ensures { OnOk result (self.new ≡ node_added name.entry.bytes self.old) }
    {
        let node = self.node_made(alloc, &name);
        self.nodes.push(node)?;
        self.node_names.put(alloc, name.text())
    }

    /// The node of this name, of the type and the call on top, which it takes off.
    fn node_made(&mut self, alloc: Global, name: &Token) -> Node
        ensures node { result ≡ node_made name.now.bytes self.old }
        ensures rest { self.new ≡ record self.old { types = drop 1 self.old.types; calls = drop 1 self.old.calls } }
    {
        let ty = self.types.pop_or(IrType::Token(Seq::new(alloc)));
        let call = self.calls.pop_or(no_call(alloc));
        Node {
            id: name.id(),
            ty,
            op: op_or(name.op()),
            operands: call.operands,
            attributes: call.attributes,
        }
    }

    /// `next(OPERAND)`
    pub fn next_of(&mut self) -> Result<(), AllocError>
        ensures { OnOk result (self.new ≡ next_of self.old) }
    {
        let close = self.tokens.pop_or(Token::nothing());
        self.skip(1);
        let word = self.tokens.pop_or(Token::nothing());
        self.nexts.push(join(word.span(), close.span()))
    }

    /// A proc, up to its `}`.
    pub fn proc_of(&mut self, alloc: Global) -> Result<(), AllocError>
        ensures { OnOk result (self.new ≡ proc_of self.old) }
    {
        let close = self.tokens.pop_or(Token::nothing());
        let count = self.counts.pop_or(0);
        let spans = Seq::from_vec(self.node_spans.take_top(count)?);
        self.spans_of(spans, close.span().to)?;
        let name = self.take_name(alloc)?;
        let nodes = Seq::from_vec(self.nodes.take_top(count)?);
        let proc = self.proc_made(alloc, name, nodes);
        self.procs.push(proc)?;
        self.node_names.clear(alloc);
        Ok(())
    }

    /// Says where a proc stands, by its first and last lines, which it takes off.
    fn spans_of(&mut self, nodes: Seq<Span>, end: u32) -> Result<(), AllocError>
        ensures { OnOk result (self.new ≡ record self.old {
          heads = drop 1 self.old.heads;
          nexts = drop 1 self.old.nexts;
          proc_spans = spans_made nodes end self.old ∷ self.old.proc_spans;
        }) }
    {
        let line_spans = ProcSpans {
            head: self.heads.pop_or(NOWHERE),
            nodes,
            next: self.nexts.pop_or(NOWHERE),
            end,
        };
        self.proc_spans.push(line_spans)
    }

    /// Takes the name on top.
    fn take_name(&mut self, alloc: Global) -> Result<Name, AllocError>
        ensures name { IfOk result (λ name. name ≡ (token_of self.old.names).bytes) }
        ensures rest { OnOk result (self.new ≡ record self.old { names = drop 1 self.old.names }) }
    {
        let token = self.names.pop_or(Token::nothing());
        name_of(alloc, &token)
    }

    /// A proc of this name and these nodes, by the parts on top, which it takes off.
    fn proc_made(&mut self, alloc: Global, name: Name, nodes: Seq<Node>) -> Proc
        ensures proc { result ≡ record (proc_made nodes self.old) { name = name } }
        ensures rest { self.new ≡ record self.old {
          types = drop 1 self.old.types;
          constants = drop 1 self.old.constants;
          operands = drop 1 self.old.operands;
        } }
    {
        Proc {
            name,
            state: self.types.pop_or(IrType::Token(Seq::new(alloc))),
            init: self.constants.pop_or(Constant::Number(0)),
            nodes,
            next: self.operands.pop_or(Operand::State),
        }
    }

    /// `package NAME`, of which the name stays.
    pub fn package_line(&mut self) -> Result<(), AllocError>
        ensures { OnOk result (self.new ≡ package_line self.old) }
    {
        let word = self.tokens.pop_or(Token::nothing());
        let name = self.names.pop_or(Token::nothing());
        self.heads.push(join(word.span(), name.span()))?;
        self.names.push(name)
    }
}
