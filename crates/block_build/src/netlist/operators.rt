//! Wires of operations on numbers.

ghost use Rattle.std.specs.Prelude.{◌≡◌, ◌≤◌, ◌<◌, ◌+◌, ◌^◌, ℕ, [], ◌∷◌, map, IfOk};
ghost use Rattle.xb_bits.specs.Operations as bits;
ghost use Rattle.xb_value.specs.Flat.{joined as joined_words};
ghost use Rattle.ir_tree.specs.Operations.{binary_word, unary_word, shift_word, reduce_word, extend_word, holds, bit};
ghost use Rattle.delay_model.specs.declared.op.Binary.TheVariants.{Udiv, Umod};
ghost use Rattle.delay_model.specs.declared.op.Unary.TheVariants.{Reverse};
ghost use Rattle.delay_model.specs.declared.op.Extend.TheVariants.{Sign};
ghost use Rattle.vlog_tree.specs.declared.expression.Simple.TheVariants as simple;
ghost use Rattle.vlog_tree.specs.Value as verilog;
ghost use Rattle.vlog_tree.specs.Value.{atom_value};
ghost use Rattle.block_build.specs.Netlist.Added.{next_number, AddsWires, Puts};
ghost use Rattle.block_build.specs.Netlist.Gates.{net};
ghost use Rattle.block_build.specs.Netlist.Leaves.{nets};
ghost use Rattle.block_build.specs.Netlist.Operators.{part_of, fitted as fitted_word, bit_wires};
ghost use Rattle.block_build.specs.Netlist.Results.{GivesOne, GivesTwo};

use crate::netlist::literals::{ones, zeros};
use crate::netlist::wires::WireList;
use delay_model::{Compare, Extend, Reduce, Shift};
use sqlite_items::Items;
use std::alloc::{AllocError, Global};
use vlog_tree::{Atom, Binary, Expr, Order, Signal, Simple, Unary};

/// The result of an operation on two numbers of so many bits.
pub fn binary(
    wires: &mut WireList,
    operation: delay_model::Binary,
    width: u64,
    a: Atom,
    b: Atom,
) -> Result<Atom, AllocError>
    ensures { IfOk result (λ r. AddsWires wires.old wires.new (λ v. GivesTwo v width width (binary_word operation) a b r)) }
{
    match operation {
        delay_model::Binary::Add => wires.binary(width, Binary::Add, a, b),
        delay_model::Binary::Sub => wires.binary(width, Binary::Subtract, a, b),
        delay_model::Binary::Umul => wires.binary(width, Binary::Multiply, a, b),
        delay_model::Binary::Udiv => quotient(wires, width, a, b),
        delay_model::Binary::Umod => remainder(wires, width, a, b),
        delay_model::Binary::And => wires.binary(width, Binary::And, a, b),
        delay_model::Binary::Or => wires.binary(width, Binary::Or, a, b),
        delay_model::Binary::Xor => wires.binary(width, Binary::Xor, a, b),
    }
}

/// The quotient of two numbers, and all ones where the divisor is 0.
fn quotient(wires: &mut WireList, width: u64, a: Atom, b: Atom) -> Result<Atom, AllocError>
    ensures { IfOk result (λ r. AddsWires wires.old wires.new (λ v. GivesTwo v width width (binary_word Udiv) a b r)) }
{
    let some = wires.binary(1, Binary::NotEqual, b, zeros(width))?;
    let quotient = Simple::Binary(Binary::Divide, a, b);
    wires.driven(
        width,
        Expr::Choice(some, quotient, Simple::Atom(ones(width))),
    )
}

/// The remainder, and 0 where the divisor is 0.
fn remainder(wires: &mut WireList, width: u64, a: Atom, b: Atom) -> Result<Atom, AllocError>
    ensures { IfOk result (λ r. AddsWires wires.old wires.new (λ v. GivesTwo v width width (binary_word Umod) a b r)) }
{
    let none = zeros(width);
    let some = wires.binary(1, Binary::NotEqual, b, none)?;
    let remainder = Simple::Binary(Binary::Remainder, a, b);
    wires.driven(width, Expr::Choice(some, remainder, Simple::Atom(none)))
}

/// Whether two numbers of so many bits compare so.
pub fn compare(
    wires: &mut WireList,
    operation: Compare,
    width: u64,
    a: Atom,
    b: Atom,
) -> Result<Atom, AllocError>
    ensures { IfOk result (λ r. AddsWires wires.old wires.new (λ v. GivesTwo v width width (λ x y. bit (holds operation x y)) a b r)) }
{
    match operation {
        Compare::Eq => wires.binary(1, Binary::Equal, a, b),
        Compare::Ne => wires.binary(1, Binary::NotEqual, a, b),
        Compare::Ult => wires.binary(1, Binary::Ordered(Order::Less), a, b),
        Compare::Ule => wires.binary(1, Binary::Ordered(Order::LessOrEqual), a, b),
        Compare::Ugt => wires.binary(1, Binary::Ordered(Order::Greater), a, b),
        Compare::Uge => wires.binary(1, Binary::Ordered(Order::GreaterOrEqual), a, b),
        Compare::Slt => signed(wires, width, Order::Less, a, b),
        Compare::Sle => signed(wires, width, Order::LessOrEqual, a, b),
        Compare::Sgt => signed(wires, width, Order::Greater, a, b),
        Compare::Sge => signed(wires, width, Order::GreaterOrEqual, a, b),
    }
}

/// The same of signed numbers.
fn signed(
    wires: &mut WireList,
    width: u64,
    order: Order,
    a: Atom,
    b: Atom,
) -> Result<Atom, AllocError>
    ensures { IfOk result (λ r. AddsWires wires.old wires.new (λ v.
        atom_value v r ≡ verilog.bit (verilog.holds order (bits.cmp_s (atom_value v a) (atom_value v b))))) }
{
    let first = wires.named(width, a)?;
    let second = wires.named(width, b)?;
    wires.driven(1, Expr::SignedOrder(order, first, second))
}

/// A number of so many bits, shifted by an amount of any width.
pub fn shift(
    wires: &mut WireList,
    operation: Shift,
    width: u64,
    a: Atom,
    amount: Atom,
) -> Result<Atom, AllocError>
    ensures { IfOk result (λ r. AddsWires wires.old wires.new (λ v. (u : ℕ) → GivesTwo v width u (shift_word operation) a amount r)) }
{
    match operation {
        Shift::Shll => wires.binary(width, Binary::ShiftLeft, a, amount),
        Shift::Shrl => wires.binary(width, Binary::ShiftRight, a, amount),
        Shift::Shra => signed_shift(wires, width, a, amount),
    }
}

/// The same of a signed number to the right.
fn signed_shift(wires: &mut WireList, width: u64, a: Atom, amount: Atom) -> Result<Atom, AllocError>
    ensures { IfOk result (λ r. AddsWires wires.old wires.new (λ v. atom_value v r ≡ bits.shra (atom_value v a) (atom_value v amount))) }
{
    let signal = wires.named(width, a)?;
    wires.driven(width, Expr::SignedShift(signal, amount))
}

/// The result of an operation on a number of so many bits.
pub fn unary(
    alloc: Global,
    wires: &mut WireList,
    operation: delay_model::Unary,
    width: u64,
    a: Atom,
) -> Result<Atom, AllocError>
    ensures { IfOk result (λ r. AddsWires wires.old wires.new (λ v. GivesOne v width (unary_word operation) a r)) }
{
    match operation {
        delay_model::Unary::Not => wires.unary(width, Unary::Complement, a),
        delay_model::Unary::Neg => wires.unary(width, Unary::Negate, a),
        delay_model::Unary::Reverse => reversed(alloc, wires, width, a),
    }
}

/// The bits of a number in the other order.
fn reversed(alloc: Global, wires: &mut WireList, width: u64, a: Atom) -> Result<Atom, AllocError>
    ensures { IfOk result (λ r. AddsWires wires.old wires.new (λ v. GivesOne v width (unary_word Reverse) a r)) }
{
    let signal = wires.named(width, a)?;
    let bits = bits_of(alloc, wires, width, signal)?;
    wires.simple(width, Simple::Concat(Items::from_vec(bits)))
}

/// The bits of a signal, the lowest first.
fn bits_of(
    alloc: Global,
    wires: &mut WireList,
    width: u64,
    signal: Signal,
) -> Result<Vec<Atom>, AllocError>
    ensures signals { IfOk result (λ bits. bits.items ≡ nets (next_number wires.old) width) }
    ensures puts { IfOk result (λ bits. Puts wires.old wires.new (bit_wires width signal.0 0 width)) }
{
    let mut bits = Vec::new(alloc);
    'each: for i in 0..width {
        bits.push(wires.simple(1, part(width, signal, i, 1))?)?;
    }
    Ok(bits)
}

/// One bit of all bits of a number.
pub fn reduce(wires: &mut WireList, operation: Reduce, a: Atom) -> Result<Atom, AllocError>
    ensures { IfOk result (λ r. AddsWires wires.old wires.new (λ v. (width : ℕ) → GivesOne v width (reduce_word operation) a r)) }
{
    match operation {
        Reduce::And => wires.unary(1, Unary::AllOnes, a),
        Reduce::Or => wires.unary(1, Unary::SomeOne, a),
        Reduce::Xor => wires.unary(1, Unary::Parity, a),
    }
}

/// So many bits of a signal of `all` bits, from a bit on. A signal of one bit has no slices.
pub fn part(all: u64, signal: Signal, low: u64, width: u64) -> Simple
    ensures { low + width < 2 ^ 64 → result ≡ part_of all signal.0 low width }
{
    if all == 1 {
        return Simple::Atom(Atom::Signal(signal));
    }
    Simple::Slice {
        of: signal,
        high: low.saturating_add(width).saturating_sub(1),
        low,
    }
}

/// So many bits of a number of `all` bits, from a bit on.
pub fn slice(
    wires: &mut WireList,
    all: u64,
    a: Atom,
    low: u64,
    width: u64,
) -> Result<Atom, AllocError>
    ensures { IfOk result (λ r. AddsWires wires.old wires.new (λ v. 1 ≤ width → low + width ≤ all → GivesOne v all (λ x. bits.slice x low width) a r)) }
{
    let signal = wires.named(all, a)?;
    wires.simple(width, part(all, signal, low, width))
}

/// A signal below a number.
fn below(alloc: Global, high: Atom, signal: Signal) -> Result<Simple, AllocError>
    ensures { IfOk result (λ x. x ≡ simple.Concat (high ∷ net signal.0 ∷ [])) }
{
    let mut atoms = Items::new(alloc);
    atoms.push(high)?;
    atoms.push(Atom::Signal(signal))?;
    Ok(Simple::Concat(atoms))
}

/// The low bits of a signal of `all` bits, or it below zeros.
fn fitted(
    alloc: Global,
    all: u64,
    width: u64,
    signal: Signal,
    zeros: Atom,
) -> Result<Simple, AllocError>
    ensures { IfOk result (λ x. x ≡ fitted_word all width signal.0 zeros) }
{
    if width < all {
        Ok(Simple::Slice {
            of: signal,
            high: width.saturating_sub(1),
            low: 0,
        })
    } else if all == width {
        Ok(Simple::Atom(Atom::Signal(signal)))
    } else {
        below(alloc, zeros, signal)
    }
}

/// So many bits of a number of `all` bits, from the bit on whose index is a number; zeros behind its end.
pub fn dyn_slice(
    alloc: Global,
    wires: &mut WireList,
    all: u64,
    a: Atom,
    start: Atom,
    width: u64,
) -> Result<Atom, AllocError>
    ensures { IfOk result (λ r. AddsWires wires.old wires.new (λ v. (u : ℕ) → 1 ≤ width → width ≤ 128 → GivesTwo v all u (λ x y. bits.dyn_slice x y width) a start r)) }
{
    let shift = Simple::Binary(Binary::ShiftRight, a, start);
    let shifted = wires.wire(all, Expr::Simple(shift))?;
    let bits = fitted(alloc, all, width, shifted, zeros(width.saturating_sub(all)))?;
    wires.simple(width, bits)
}

/// A number of `all` bits, made longer.
pub fn extend(
    alloc: Global,
    wires: &mut WireList,
    operation: Extend,
    all: u64,
    width: u64,
    a: Atom,
) -> Result<Atom, AllocError>
    ensures { IfOk result (λ r. AddsWires wires.old wires.new (λ v. all ≤ width → width ≤ 128 → GivesOne v all (λ x. extend_word operation x width) a r)) }
{
    let signal = wires.named(all, a)?;
    match operation {
        Extend::Zero => {
            let longer = fitted(alloc, all, width, signal, zeros(width.saturating_sub(all)))?;
            wires.simple(width, longer)
        }
        Extend::Sign => sign_extended(alloc, wires, all, width, signal),
    }
}

/// A signal of `all` bits below copies of its highest bit.
fn sign_extended(
    alloc: Global,
    wires: &mut WireList,
    all: u64,
    width: u64,
    signal: Signal,
) -> Result<Atom, AllocError>
    ensures { IfOk result (λ r. AddsWires wires.old wires.new (λ v. all ≤ width → width ≤ 128 → GivesOne v all (λ x. extend_word Sign x width) (net signal.0) r)) }
{
    if width <= all {
        return Ok(Atom::Signal(signal));
    }
    let sign = wires.simple(1, part(all, signal, all.saturating_sub(1), 1))?;
    let negative = below(alloc, ones(width - all), signal)?;
    let positive = below(alloc, zeros(width - all), signal)?;
    wires.driven(width, Expr::Choice(sign, negative, positive))
}

/// Numbers side by side, the first in the high bits.
pub fn joined(
    alloc: Global,
    wires: &mut WireList,
    width: u64,
    atoms: &[Atom],
) -> Result<Atom, AllocError>
    ensures { IfOk result (λ r. AddsWires wires.old wires.new (λ v. atom_value v r ≡ joined_words (map (atom_value v) atoms.now))) }
{
    let parts = Items::from_slice(alloc, atoms)?;
    wires.simple(width, Simple::Concat(parts))
}
