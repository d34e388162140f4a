//! The signals of the words of sites.

ghost use Rattle.std.specs.Prelude.{◌≡◌, IfOk};
ghost use Rattle.block_build.specs.Netlist.Added.{AddsWires};
ghost use Rattle.block_build.specs.Netlist.Words.{on_signal, CutsWord, ShowsReceived, CarriesSent};

use crate::netlist::choices::receive;
use crate::netlist::leaves::widths_of;
use crate::netlist::literals::{literal, zeros};
use crate::netlist::operators;
use crate::netlist::scopes::Scope;
use crate::netlist::wires::WireList;
use ir_tree::node_types::width_of;
use ir_tree::{Channel, IrType, Operand};
use std::alloc::{AllocError, Global};
use vlog_tree::{Atom, Signal};
use xb_value::{Seq, at};

/// Whether a site is on: the signal of its predicate, or 1.
pub fn on_of(alloc: Global, scope: Scope, predicate: Option<Operand>) -> Result<Atom, AllocError>
    ensures { IfOk result (λ on. on ≡ on_signal scope.entry predicate) }
{
    match predicate {
        Some(operand) => {
            let number = scope.number(alloc, operand)?;
            Ok(number.atom)
        }
        None => Ok(literal(1, 1)),
    }
}

/// The value that a receive gives whose word stands on a signal.
pub fn received(
    alloc: Global,
    wires: &mut WireList,
    channels: &[Channel],
    channel: u32,
    word: Signal,
    on: Atom,
) -> Result<Seq<Atom>, AllocError>
    ensures { IfOk result (λ numbers. AddsWires wires.old wires.new (λ v. ShowsReceived v channels.now channel word.0 on numbers)) }
{
    match at(channels, channel as usize) {
        Some(channel) => numbers_in(alloc, wires, &channel.ty, word, on),
        None => Ok(Seq::new(alloc)),
    }
}

/// The numbers of a value of a type in the word on a signal.
fn numbers_in(
    alloc: Global,
    wires: &mut WireList,
    ty: &IrType,
    word: Signal,
    on: Atom,
) -> Result<Seq<Atom>, AllocError>
    ensures { IfOk result (λ numbers. AddsWires wires.old wires.new (λ v. CutsWord v ty.now word.0 on numbers)) }
{
    let widths = widths_of(alloc, ty)?;
    let all = width_of(ty);
    let mut numbers = Vec::new(alloc);
    receive(wires, all, all, word, on, &widths, &mut numbers)?;
    Ok(Seq::from_vec(numbers))
}

/// The word that is sent of the second operand, on a signal of so many bits.
pub fn sent(
    alloc: Global,
    wires: &mut WireList,
    scope: Scope,
    operands: &[Operand],
    width: u64,
) -> Result<Atom, AllocError>
    ensures { IfOk result (λ word. AddsWires wires.old wires.new (λ v. CarriesSent v scope.entry operands.now word)) }
{
    match at(operands, 1) {
        Some(operand) => {
            let atoms = scope.operand(alloc, *operand)?;
            operators::joined(alloc, wires, width, atoms.as_slice())
        }
        None => Ok(zeros(1)),
    }
}
