//! What the rules of expressions make.

ghost use Rattle.std.specs.Prelude.{◌≡◌, OnOk};
ghost use Rattle.vlog_text.specs.declared.builder.tail.Tail.TheVariants.{Slice};
ghost use Rattle.vlog_text.specs.Builder.Rules.{binary_is, binary_tail, choice_tail, concat_of, expr_of, literal_atom, literal_expr, literal_simple, more, name_atom, name_expr, name_simple, no_tail, order_is, order_tail, ordered_binary, shift_tail, signed_expr, signed_of, simple_expr, simple_of, slice_tail, start, unary_is, unary_of};

use crate::builder::literal::no_literal;
use crate::builder::state::{State, no_atom, no_simple};
use crate::builder::tail::Tail;
use sqlite_items::Items;
use std::alloc::AllocError;
use vlog_tree::{Atom, Binary, Expr, Order, Signal, Simple, Unary};

impl<'a> State<'a> {
    pub fn name_atom(&mut self) -> Result<(), AllocError>
        ensures { OnOk result (self.new ≡ name_atom self.old) }
    {
        let signal = self.pop_signal();
        self.atoms.push(Atom::Signal(signal))
    }

    pub fn literal_atom(&mut self) -> Result<(), AllocError>
        ensures { OnOk result (self.new ≡ literal_atom self.old) }
    {
        let literal = self.literals.pop_or(no_literal());
        self.atoms.push(Atom::Literal(literal))
    }

    pub fn unary_is(&mut self, operator: Unary) -> Result<(), AllocError>
        ensures { OnOk result (self.new ≡ unary_is operator self.old) }
    {
        self.unaries.push(operator)
    }

    pub fn binary_is(&mut self, operator: Binary) -> Result<(), AllocError>
        ensures { OnOk result (self.new ≡ binary_is operator self.old) }
    {
        self.binaries.push(operator)
    }

    pub fn order_is(&mut self, order: Order) -> Result<(), AllocError>
        ensures { OnOk result (self.new ≡ order_is order self.old) }
    {
        self.orders.push(order)
    }

    pub fn ordered_binary(&mut self) -> Result<(), AllocError>
        ensures { OnOk result (self.new ≡ ordered_binary self.old) }
    {
        let order = self.orders.pop_or(Order::Less);
        self.binaries.push(Binary::Ordered(order))
    }

    /// A list ends, and so far has no atom behind its first.
    pub fn start(&mut self) -> Result<(), AllocError>
        ensures { OnOk result (self.new ≡ start self.old) }
    {
        self.counts.push(0)
    }

    /// The list has one atom more.
    pub fn more(&mut self) -> Result<(), AllocError>
        ensures { OnOk result (self.new ≡ more self.old) }
    {
        let count = self.counts.pop_or(0);
        self.counts.push(count.saturating_add(1))
    }

    /// `{ atoms }`
    pub fn concat_of(&mut self) -> Result<(), AllocError>
        ensures { OnOk result (self.new ≡ concat_of self.old) }
    {
        let count = self.counts.pop_or(0).saturating_add(1);
        let atoms = Items::from_vec(self.atoms.take_top(count)?);
        self.simples.push(Simple::Concat(atoms))
    }

    pub fn no_tail(&mut self) -> Result<(), AllocError>
        ensures { OnOk result (self.new ≡ no_tail self.old) }
    {
        self.tails.push(Tail::Alone)
    }

    /// `binary atom`
    pub fn binary_tail(&mut self) -> Result<(), AllocError>
        ensures { OnOk result (self.new ≡ binary_tail self.old) }
    {
        let operator = self.binaries.pop_or(Binary::Add);
        let atom = self.atoms.pop_or(no_atom());
        self.tails.push(Tail::Binary(operator, atom))
    }

    /// `[ high : low ]`
    pub fn slice_tail(&mut self) -> Result<(), AllocError>
        ensures { OnOk result (self.new ≡ slice_tail self.old) }
    {
        let low = self.numbers.pop_or(0);
        let high = self.numbers.pop_or(0);
        self.tails.push(Tail::Slice(high, low))
    }

    /// `? simple : simple`
    pub fn choice_tail(&mut self) -> Result<(), AllocError>
        ensures { OnOk result (self.new ≡ choice_tail self.old) }
    {
        let otherwise = self.simples.pop_or(no_simple());
        let then = self.simples.pop_or(no_simple());
        self.tails.push(Tail::Choice(then, otherwise))
    }

    /// `comparison $signed ( name )`
    pub fn order_tail(&mut self) -> Result<(), AllocError>
        ensures { OnOk result (self.new ≡ order_tail self.old) }
    {
        let order = self.orders.pop_or(Order::Less);
        let other = self.pop_signal();
        self.tails.push(Tail::SignedOrder(order, other))
    }

    /// `>>> atom`
    pub fn shift_tail(&mut self) -> Result<(), AllocError>
        ensures { OnOk result (self.new ≡ shift_tail self.old) }
    {
        let amount = self.atoms.pop_or(no_atom());
        self.tails.push(Tail::SignedShift(amount))
    }

    /// `unary atom`
    pub fn unary_of(&mut self) -> Result<(), AllocError>
        ensures { OnOk result (self.new ≡ unary_of self.old) }
    {
        let operator = self.unaries.pop_or(Unary::Negate);
        let atom = self.atoms.pop_or(no_atom());
        self.simples.push(Simple::Unary(operator, atom))
    }

    pub fn name_simple(&mut self) -> Result<(), AllocError>
        ensures { OnOk result (self.new ≡ name_simple self.old) }
    {
        let first = Atom::Signal(self.pop_signal());
        let tail = self.tails.pop_or(Tail::Alone);
        self.simples.push(simple_of(first, tail))
    }

    pub fn literal_simple(&mut self) -> Result<(), AllocError>
        ensures { OnOk result (self.new ≡ literal_simple self.old) }
    {
        let first = Atom::Literal(self.literals.pop_or(no_literal()));
        let tail = self.tails.pop_or(Tail::Alone);
        self.simples.push(simple_of(first, tail))
    }

    pub fn name_expr(&mut self) -> Result<(), AllocError>
        ensures { OnOk result (self.new ≡ name_expr self.old) }
    {
        let first = Atom::Signal(self.pop_signal());
        let tail = self.tails.pop_or(Tail::Alone);
        self.exprs.push(expr_of(first, tail))
    }

    pub fn literal_expr(&mut self) -> Result<(), AllocError>
        ensures { OnOk result (self.new ≡ literal_expr self.old) }
    {
        let first = Atom::Literal(self.literals.pop_or(no_literal()));
        let tail = self.tails.pop_or(Tail::Alone);
        self.exprs.push(expr_of(first, tail))
    }

    pub fn simple_expr(&mut self) -> Result<(), AllocError>
        ensures { OnOk result (self.new ≡ simple_expr self.old) }
    {
        let simple = self.simples.pop_or(no_simple());
        self.exprs.push(Expr::Simple(simple))
    }

    /// `$signed ( name ) tail`
    pub fn signed_expr(&mut self) -> Result<(), AllocError>
        ensures { OnOk result (self.new ≡ signed_expr self.old) }
    {
        let first = self.pop_signal();
        let tail = self.tails.pop_or(Tail::Alone);
        self.exprs.push(signed_of(first, tail))
    }
}

/// An atom with what stands behind it.
fn simple_of(first: Atom, tail: Tail) -> Simple
    ensures { result ≡ simple_of first tail }
{
    match tail {
        Tail::Binary(operator, other) => Simple::Binary(operator, first, other),
        Tail::Slice(high, low) => slice_of(first, high, low),
        _ => Simple::Atom(first),
    }
}

/// The bits of a signal.
fn slice_of(first: Atom, high: u64, low: u64) -> Simple
    ensures { result ≡ simple_of first (Slice high low) }
{
    match first {
        Atom::Signal(of) => Simple::Slice { of, high, low },
        Atom::Literal(_) => Simple::Atom(first),
    }
}

/// The same where the expression may be a choice.
fn expr_of(first: Atom, tail: Tail) -> Expr
    ensures { result ≡ expr_of first tail }
{
    match tail {
        Tail::Choice(then, otherwise) => Expr::Choice(first, then, otherwise),
        tail => Expr::Simple(simple_of(first, tail)),
    }
}

/// `$signed(first)` with what stands behind it.
fn signed_of(first: Signal, tail: Tail) -> Expr
    ensures { result ≡ signed_of first tail }
{
    match tail {
        Tail::SignedOrder(order, other) => Expr::SignedOrder(order, first, other),
        Tail::SignedShift(amount) => Expr::SignedShift(first, amount),
        _ => Expr::Simple(Simple::Atom(Atom::Signal(first))),
    }
}
