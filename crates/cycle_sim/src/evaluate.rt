ghost use Rattle.std.specs.Prelude.{◌≡◌, ℕ, ◌<◌, ◌≤◌, ◌+◌, ◌-◌, ◌∷◌, length, true};
ghost use Rattle.xb_bits.specs.Word.{IsWord};
ghost use Rattle.vlog_tree.specs.declared.expression.Binary.TheVariants as binary;
ghost use Rattle.cycle_sim.specs.Agree.{agrees};
ghost use Rattle.xb_bits.specs.Operations as op;
ghost use Rattle.vlog_tree.specs.Forms.{joined_width};
ghost use Rattle.vlog_tree.specs.Value.{bit, holds, joined_value, atom_value, binary_value, unary_value, simple_value, expr_value};
ghost use Rattle.vlog_tree.specs.Forms.{binary_fits, unary_fits, simple_fits, fits};
ghost use Rattle.std.specs.List.{AllByRecursion};
ghost use Rattle.vlog_tree.specs.Settled.{values_of, widths_of};
ghost use Rattle.vlog_tree.specs.Sound.{IsKnownAtom, IsSoundSimple, IsSoundExpr};

use std::cmp::Ordering;
use vlog_tree::{Atom, Binary, Expr, Order, Signal, Simple, Unary};
use xb_bits::Bits;

/// The number of a signal.
pub fn signal(values: &[Bits], signal: Signal) -> Bits
    requires { signal.0 < length values.now }
    ensures { result ≡ values_of values.now signal.0 }
{
    values[signal.0 as usize]
}

/// The number of an atom.
pub fn atom(values: &[Bits], atom: Atom) -> Bits
    requires { IsKnownAtom (length values.now) atom }
    ensures { result ≡ atom_value (values_of values.now) atom }
{
    match atom {
        Atom::Signal(named) => signal(values, named),
        Atom::Literal(literal) => Bits::new(literal.width as u8, literal.value),
    }
}

/// Whether the comparison holds of two numbers that are so ordered.
fn stands(order: Order, ordering: Ordering) -> bool
    ensures { result ≡ holds order ordering }
{
    match order {
        Order::Less => ordering.is_lt(),
        Order::LessOrEqual => ordering.is_le(),
        Order::Greater => ordering.is_gt(),
        Order::GreaterOrEqual => ordering.is_ge(),
    }
}

/// A number of one bit.
pub fn of_bool(b: bool) -> Bits
    ensures { result ≡ bit b }
{
    Bits::new(1, if b { 1 } else { 0 })
}

/// The quotient, rounded down, and 0 by 0.
fn quotient(a: Bits, b: Bits) -> Bits
    requires { a.width ≡ b.width }
    ensures { result ≡ binary_value binary.Divide a b }
{
    if b.value() == 0 {
        Bits::new(a.width(), 0)
    } else {
        xb_bits::udiv(a, b)
    }
}

/// The number that an operator makes of two.
pub fn binary(operator: Binary, a: Bits, b: Bits) -> Bits
    requires { agrees operator a.width b.width ≡ true }
    ensures { result ≡ binary_value operator a b }
{
    match operator {
        Binary::Add => xb_bits::add(a, b),
        Binary::Subtract => xb_bits::sub(a, b),
        Binary::Multiply => xb_bits::mul(a, b),
        Binary::Divide => quotient(a, b),
        Binary::Remainder => xb_bits::umod(a, b),
        Binary::And => xb_bits::and(a, b),
        Binary::Or => xb_bits::or(a, b),
        Binary::Xor => xb_bits::xor(a, b),
        Binary::Equal => of_bool(a.value() == b.value()),
        Binary::NotEqual => of_bool(a.value() != b.value()),
        Binary::Ordered(order) => of_bool(stands(order, xb_bits::cmp_u(a, b))),
        Binary::ShiftLeft => xb_bits::shll(a, b),
        Binary::ShiftRight => xb_bits::shrl(a, b),
    }
}

/// The number that an operator makes of one.
pub fn unary(operator: Unary, a: Bits) -> Bits
    ensures { result ≡ unary_value operator a }
{
    match operator {
        Unary::Negate => xb_bits::neg(a),
        Unary::Complement => xb_bits::not(a),
        Unary::AllOnes => xb_bits::and_reduce(a),
        Unary::SomeOne => xb_bits::or_reduce(a),
        Unary::Parity => xb_bits::xor_reduce(a),
    }
}

/// The numbers of atoms side by side, the first in the high bits. It recurses once an atom, and each has a bit.
fn joined(values: &[Bits], first: Atom, rest: &[Atom]) -> Bits
    requires known { AllByRecursion (IsKnownAtom (length values.now)) (first ∷ rest.now) }
    requires most_width { joined_width (widths_of values.now) (first ∷ rest.now) ≤ 128 }
    ensures value { result ≡ joined_value (values_of values.now) (first ∷ rest.now) }
    ensures width { result.width ≡ joined_width (widths_of values.now) (first ∷ rest.now) }
{
    let high = atom(values, first);
    match rest {
        [] => high,
        [next, rest @ ..] => xb_bits::concat(high, joined(values, *next, rest)),
    }
}

/// The numbers of one atom or more side by side, the first in the high bits.
fn concat(values: &[Bits], atoms: &[Atom]) -> Bits
    requires known { AllByRecursion (IsKnownAtom (length values.now)) atoms.now }
    requires some_width { 1 ≤ joined_width (widths_of values.now) atoms.now }
    requires most_width { joined_width (widths_of values.now) atoms.now ≤ 128 }
    ensures { result ≡ joined_value (values_of values.now) atoms.now }
{
    match atoms {
        [] => unreachable!(),
        [first, rest @ ..] => joined(values, *first, rest),
    }
}

/// The bits of a number from `low` to `high`.
fn slice(x: Bits, high: u64, low: u64) -> Bits
    requires ordered { low ≤ high }
    requires within { high < x.width }
    ensures { result ≡ op.slice x low (high + 1 - low) }
{
    let low = low as u8;
    xb_bits::slice(x, low, high as u8 + 1 - low)
}

/// The number of a simple expression.
pub fn simple(values: &[Bits], x: &Simple) -> Bits
    requires { (width : ℕ) × IsSoundSimple (length values.now) (widths_of values.now) width x.now }
    ensures { result ≡ simple_value (values_of values.now) x.now }
{
    match x {
        Simple::Atom(a) => atom(values, *a),
        Simple::Binary(operator, a, b) => binary(*operator, atom(values, *a), atom(values, *b)),
        Simple::Unary(operator, a) => unary(*operator, atom(values, *a)),
        Simple::Slice { of, high, low } => slice(signal(values, *of), *high, *low),
        Simple::Concat(atoms) => concat(values, atoms.as_slice()),
    }
}

/// The number of an expression.
pub fn expr(values: &[Bits], x: &Expr) -> Bits
    requires { (width : ℕ) × IsSoundExpr (length values.now) (widths_of values.now) width x.now }
    ensures { result ≡ expr_value (values_of values.now) x.now }
{
    match x {
        Expr::Simple(x) => simple(values, x),
        Expr::SignedOrder(order, a, b) => {
            of_bool(stands(
                *order,
                xb_bits::cmp_s(signal(values, *a), signal(values, *b)),
            ))
        }
        Expr::SignedShift(a, amount) => xb_bits::shra(signal(values, *a), atom(values, *amount)),
        Expr::Choice(condition, then, otherwise) => {
            if atom(values, *condition).value() == 0 {
                simple(values, otherwise)
            } else {
                simple(values, then)
            }
        }
    }
}
