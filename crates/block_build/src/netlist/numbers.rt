//! The signals of nodes that give a number.

ghost use Rattle.std.specs.Prelude.{◌≡◌, [], ◌∷◌, ◌++◌, map, IfOk};
ghost use Rattle.delay_model.specs.declared.op.Op.TheVariants as op;
ghost use Rattle.delay_model.specs.declared.signature.Count.TheVariants.{Exactly, AtLeast};
ghost use Rattle.ir_tree.specs.Operations.{plain_value, slice_value, dyn_slice_value, longer_value, of_one, of_two, on_word, on_words};
ghost use Rattle.ir_tree.specs.Rules.Fitting.{plain_fits, slice_fits, dynamic_fits, extend_fits};
ghost use Rattle.block_build.specs.Netlist.Added.{AddsWires};
ghost use Rattle.block_build.specs.Netlist.Pure.{scope_types, ShowsOperation};

use crate::netlist::operators;
use crate::netlist::scopes::{Scope, all_of, one};
use crate::netlist::wires::WireList;
use delay_model::{Binary, Compare, Extend, Reduce, Shift, Unary};
use ir_tree::Operand;
use ir_tree::node_types::bounded;
use std::alloc::{AllocError, Global};
use vlog_tree::Atom;
use xb_value::Seq;

/// The result of an operation on two numbers of one width.
pub fn binary(
    alloc: Global,
    wires: &mut WireList,
    scope: Scope,
    operation: Binary,
    operands: &[Operand],
) -> Result<Seq<Atom>, AllocError>
    ensures { IfOk result (λ own. AddsWires wires.old wires.new (λ v.
        ShowsOperation v scope.entry (Exactly 2) operands.now (plain_fits (op.Binary operation) (scope_types scope.entry) operands.now) (plain_value (op.Binary operation)) own)) }
{
    let a = scope.number_at(alloc, operands, 0)?;
    let b = scope.number_at(alloc, operands, 1)?;
    let result = operators::binary(wires, operation, a.width, a.atom, b.atom)?;
    one(alloc, result)
}

/// That of an operation on one number.
pub fn unary(
    alloc: Global,
    wires: &mut WireList,
    scope: Scope,
    operation: Unary,
    operands: &[Operand],
) -> Result<Seq<Atom>, AllocError>
    ensures { IfOk result (λ own. AddsWires wires.old wires.new (λ v.
        ShowsOperation v scope.entry (Exactly 1) operands.now (plain_fits (op.Unary operation) (scope_types scope.entry) operands.now) (plain_value (op.Unary operation)) own)) }
{
    let a = scope.number_at(alloc, operands, 0)?;
    let result = operators::unary(alloc, wires, operation, a.width, a.atom)?;
    one(alloc, result)
}

/// Whether two numbers of one width compare so.
pub fn compare(
    alloc: Global,
    wires: &mut WireList,
    scope: Scope,
    operation: Compare,
    operands: &[Operand],
) -> Result<Seq<Atom>, AllocError>
    ensures { IfOk result (λ own. AddsWires wires.old wires.new (λ v.
        ShowsOperation v scope.entry (Exactly 2) operands.now (plain_fits (op.Compare operation) (scope_types scope.entry) operands.now) (plain_value (op.Compare operation)) own)) }
{
    let a = scope.number_at(alloc, operands, 0)?;
    let b = scope.number_at(alloc, operands, 1)?;
    let result = operators::compare(wires, operation, a.width, a.atom, b.atom)?;
    one(alloc, result)
}

/// A number, shifted by another.
pub fn shift(
    alloc: Global,
    wires: &mut WireList,
    scope: Scope,
    operation: Shift,
    operands: &[Operand],
) -> Result<Seq<Atom>, AllocError>
    ensures { IfOk result (λ own. AddsWires wires.old wires.new (λ v.
        ShowsOperation v scope.entry (Exactly 2) operands.now (plain_fits (op.Shift operation) (scope_types scope.entry) operands.now) (plain_value (op.Shift operation)) own)) }
{
    let a = scope.number_at(alloc, operands, 0)?;
    let b = scope.number_at(alloc, operands, 1)?;
    let result = operators::shift(wires, operation, a.width, a.atom, b.atom)?;
    one(alloc, result)
}

/// One bit of all bits of a number.
pub fn reduce(
    alloc: Global,
    wires: &mut WireList,
    scope: Scope,
    operation: Reduce,
    operands: &[Operand],
) -> Result<Seq<Atom>, AllocError>
    ensures { IfOk result (λ own. AddsWires wires.old wires.new (λ v.
        ShowsOperation v scope.entry (Exactly 1) operands.now (plain_fits (op.Reduce operation) (scope_types scope.entry) operands.now) (plain_value (op.Reduce operation)) own)) }
{
    let a = scope.number_at(alloc, operands, 0)?;
    let result = operators::reduce(wires, operation, a.atom)?;
    one(alloc, result)
}

/// Numbers side by side.
pub fn concat(
    alloc: Global,
    wires: &mut WireList,
    scope: Scope,
    operands: &[Operand],
    width: u64,
) -> Result<Seq<Atom>, AllocError>
    ensures { IfOk result (λ own. AddsWires wires.old wires.new (λ v.
        ShowsOperation v scope.entry (AtLeast 1) operands.now (plain_fits op.Concat (scope_types scope.entry) operands.now) (plain_value op.Concat) own)) }
{
    let shown = scope.operands(alloc, operands)?;
    let atoms = all_of(alloc, &shown)?;
    let result = operators::joined(alloc, wires, width, atoms.as_slice())?;
    one(alloc, result)
}

/// So many bits of a number, from a bit on.
pub fn slice(
    alloc: Global,
    wires: &mut WireList,
    scope: Scope,
    operands: &[Operand],
    start: u128,
    width: u128,
) -> Result<Seq<Atom>, AllocError>
    ensures { IfOk result (λ own. AddsWires wires.old wires.new (λ v.
        ShowsOperation v scope.entry (Exactly 1) operands.now (slice_fits start width (scope_types scope.entry) operands.now) (of_one (on_word (slice_value start width))) own)) }
{
    let a = scope.number_at(alloc, operands, 0)?;
    let result = operators::slice(wires, a.width, a.atom, bounded(start), bounded(width))?;
    one(alloc, result)
}

/// So many bits of a number, from the bit on whose index is another.
pub fn dyn_slice(
    alloc: Global,
    wires: &mut WireList,
    scope: Scope,
    operands: &[Operand],
    width: u128,
) -> Result<Seq<Atom>, AllocError>
    ensures { IfOk result (λ own. AddsWires wires.old wires.new (λ v.
        ShowsOperation v scope.entry (Exactly 2) operands.now (dynamic_fits width (scope_types scope.entry) operands.now) (of_two (on_words (dyn_slice_value width))) own)) }
{
    let a = scope.number_at(alloc, operands, 0)?;
    let b = scope.number_at(alloc, operands, 1)?;
    let result = operators::dyn_slice(alloc, wires, a.width, a.atom, b.atom, bounded(width))?;
    one(alloc, result)
}

/// A number, made longer.
pub fn extend(
    alloc: Global,
    wires: &mut WireList,
    scope: Scope,
    operation: Extend,
    operands: &[Operand],
    width: u128,
) -> Result<Seq<Atom>, AllocError>
    ensures { IfOk result (λ own. AddsWires wires.old wires.new (λ v.
        ShowsOperation v scope.entry (Exactly 1) operands.now (extend_fits width (scope_types scope.entry) operands.now) (longer_value (op.Extend operation) width) own)) }
{
    let a = scope.number_at(alloc, operands, 0)?;
    let result = operators::extend(alloc, wires, operation, a.width, bounded(width), a.atom)?;
    one(alloc, result)
}
