//! The signals of nodes.

ghost use Rattle.std.specs.Prelude.{◌≡◌, [], ◌∷◌, ◌++◌, ◌&&◌, length, map, IfOk};
ghost use Rattle.xb_bits.specs.Word.{Word};
ghost use Rattle.delay_model.specs.declared.op.Op.TheVariants as op_of;
ghost use Rattle.delay_model.specs.declared.signature.Count.TheVariants.{Exactly};
ghost use Rattle.delay_model.specs.Signatures.{is_met, count_of};
ghost use Rattle.ir_tree.specs.Constants.{constant_value};
ghost use Rattle.ir_tree.specs.NodeValues.{operand_value, optional_value};
ghost use Rattle.ir_tree.specs.Operations.{plain_value, longer_value, index_value, of_one, on_tuple, on_word, chosen, element_at};
ghost use Rattle.ir_tree.specs.Types.{ty_of};
ghost use Rattle.ir_tree.specs.Rules.Fitting.{plain_fits, extend_fits, index_fits, is_extend, sel_fits, tuple_index_fits};
ghost use Rattle.vlog_tree.specs.Value.{Values};
ghost use Rattle.block_build.specs.Netlist.Added.{AddsWires};
ghost use Rattle.block_build.specs.Netlist.Leaves.{all_leaves, literals_of};
ghost use Rattle.block_build.specs.Netlist.Nodes.{optional_read};
ghost use Rattle.block_build.specs.Netlist.Pure.{scope_types, shown_in, ShowsOperation, ShowsResult, PureShows};

use crate::netlist::leaves::push_literals;
use crate::netlist::scopes::{Scope, all_of};
use crate::netlist::wires::WireList;
use crate::netlist::{numbers, selections};
use delay_model::Op;
use ir_tree::node_types::{bits_width, bounded};
use ir_tree::{Attributes, Constant, IrType, Node, Operand};
use std::alloc::{AllocError, Global};
use vlog_tree::Atom;
use xb_value::{Seq, at};

/// The signals of the value of a node that is no site.
pub fn pure(
    alloc: Global,
    wires: &mut WireList,
    scope: Scope,
    node: &Node,
) -> Result<Seq<Atom>, AllocError>
    ensures { IfOk result (λ own. AddsWires wires.old wires.new (λ v. PureShows v scope.entry node.now own)) }
{
    let operands = node.operands.as_slice();
    match &node.attributes {
        Attributes::None => plain(alloc, wires, scope, node.op, operands, &node.ty),
        Attributes::StartAndWidth(start, width) => numbers::slice(
            alloc, wires, scope, operands, *start, *width,
        ),
        Attributes::Width(width) => numbers::dyn_slice(alloc, wires, scope, operands, *width),
        Attributes::NewBitCount(width) => extended(alloc, wires, scope, node.op, operands, *width),
        Attributes::Cases(cases, default) => selected(
            alloc,
            wires,
            scope,
            operands,
            &node.ty,
            cases.as_slice(),
            *default,
        ),
        Attributes::Index(index) => part(alloc, scope, operands, *index),
        Attributes::Indices(index) => indexed(
            alloc, wires, scope, node.op, operands, &node.ty, *index,
        ),
        Attributes::Value(constant) => literals(alloc, &node.ty, constant),
        Attributes::Channel(_, _) => Ok(Seq::new(alloc)),
    }
}

/// Those of a node without attributes.
fn plain(
    alloc: Global,
    wires: &mut WireList,
    scope: Scope,
    op: Op,
    operands: &[Operand],
    ty: &IrType,
) -> Result<Seq<Atom>, AllocError>
    ensures { IfOk result (λ own. AddsWires wires.old wires.new (λ v.
        ShowsOperation v scope.entry (count_of op) operands.now (plain_fits op (scope_types scope.entry) operands.now) (plain_value op) own)) }
{
    match op {
        Op::Binary(operation) => numbers::binary(alloc, wires, scope, operation, operands),
        Op::Unary(operation) => numbers::unary(alloc, wires, scope, operation, operands),
        Op::Compare(operation) => numbers::compare(alloc, wires, scope, operation, operands),
        Op::Shift(operation) => numbers::shift(alloc, wires, scope, operation, operands),
        Op::Reduce(operation) => numbers::reduce(alloc, wires, scope, operation, operands),
        Op::Concat => numbers::concat(alloc, wires, scope, operands, bounded(bits_width(ty))),
        Op::Tuple => gathered(alloc, scope, operands),
        Op::Array => gathered(alloc, scope, operands),
        _ => Ok(Seq::new(alloc)),
    }
}

/// Those of a tuple or an array of operands.
fn gathered(alloc: Global, scope: Scope, operands: &[Operand]) -> Result<Seq<Atom>, AllocError>
    ensures { IfOk result (λ own. own ≡ all_leaves (map (shown_in scope.entry) operands.now)) }
{
    let shown = scope.operands(alloc, operands)?;
    all_of(alloc, &shown)
}

/// Those of a number, made longer.
fn extended(
    alloc: Global,
    wires: &mut WireList,
    scope: Scope,
    op: Op,
    operands: &[Operand],
    width: u128,
) -> Result<Seq<Atom>, AllocError>
    ensures { IfOk result (λ own. AddsWires wires.old wires.new (λ v.
        ShowsOperation v scope.entry (Exactly 1) operands.now (λ t. is_extend op && extend_fits width (scope_types scope.entry) operands.now t) (longer_value op width) own)) }
{
    match op {
        Op::Extend(operation) => numbers::extend(alloc, wires, scope, operation, operands, width),
        _ => Ok(Seq::new(alloc)),
    }
}

/// Those of one of several values, by a number.
fn selected(
    alloc: Global,
    wires: &mut WireList,
    scope: Scope,
    operands: &[Operand],
    ty: &IrType,
    cases: &[Operand],
    default: Option<Operand>,
) -> Result<Seq<Atom>, AllocError>
    ensures { IfOk result (λ own. AddsWires wires.old wires.new (λ v.
        ShowsResult v scope.entry (operands.now ++ (cases.now ++ optional_read default)) ty.now
        (is_met (Exactly 1) (length operands.now) && sel_fits cases.now default (scope_types scope.entry) operands.now ty.now)
        (λ s values. of_one (on_word (λ (x : Word). optional_value s values (chosen cases.now default x.value))) (map (operand_value s values) operands.now)) own)) }
{
    match at(operands, 0) {
        Some(selector) => selections::selected(alloc, wires, scope, *selector, ty, cases, default),
        None => Ok(Seq::new(alloc)),
    }
}

/// Those of a part of a tuple.
fn part(
    alloc: Global,
    scope: Scope,
    operands: &[Operand],
    index: u128,
) -> Result<Seq<Atom>, AllocError>
    ensures { IfOk result (λ own. (v : Values) →
        ShowsOperation v scope.entry (Exactly 1) operands.now (tuple_index_fits index (scope_types scope.entry) operands.now) (of_one (on_tuple (element_at index))) own) }
{
    match at(operands, 0) {
        Some(tuple) => selections::part(alloc, scope, *tuple, index),
        None => Ok(Seq::new(alloc)),
    }
}

/// Those of an element of an array, or of the array with another there.
fn indexed(
    alloc: Global,
    wires: &mut WireList,
    scope: Scope,
    op: Op,
    operands: &[Operand],
    ty: &IrType,
    index: Operand,
) -> Result<Seq<Atom>, AllocError>
    ensures { IfOk result (λ own. AddsWires wires.old wires.new (λ v.
        ShowsResult v scope.entry (operands.now ++ index ∷ []) ty.now
        (is_met (count_of op) (length operands.now) && index_fits op index (scope_types scope.entry) operands.now ty.now)
        (λ s values. index_value op (operand_value s values index) (map (operand_value s values) operands.now)) own)) }
{
    match op {
        Op::ArrayIndex => element(alloc, wires, scope, operands, ty, index),
        Op::ArrayUpdate => updated(alloc, wires, scope, operands, ty, index),
        _ => Ok(Seq::new(alloc)),
    }
}

/// Those of an element of an array.
fn element(
    alloc: Global,
    wires: &mut WireList,
    scope: Scope,
    operands: &[Operand],
    ty: &IrType,
    index: Operand,
) -> Result<Seq<Atom>, AllocError>
    ensures { IfOk result (λ own. AddsWires wires.old wires.new (λ v.
        ShowsResult v scope.entry (operands.now ++ index ∷ []) ty.now
        (is_met (Exactly 1) (length operands.now) && index_fits op_of.ArrayIndex index (scope_types scope.entry) operands.now ty.now)
        (λ s values. index_value op_of.ArrayIndex (operand_value s values index) (map (operand_value s values) operands.now)) own)) }
{
    match at(operands, 0) {
        Some(array) => selections::element(alloc, wires, scope, *array, ty, index),
        None => Ok(Seq::new(alloc)),
    }
}

/// Those of an array with another element.
fn updated(
    alloc: Global,
    wires: &mut WireList,
    scope: Scope,
    operands: &[Operand],
    ty: &IrType,
    index: Operand,
) -> Result<Seq<Atom>, AllocError>
    ensures { IfOk result (λ own. AddsWires wires.old wires.new (λ v.
        ShowsResult v scope.entry (operands.now ++ index ∷ []) ty.now
        (is_met (Exactly 2) (length operands.now) && index_fits op_of.ArrayUpdate index (scope_types scope.entry) operands.now ty.now)
        (λ s values. index_value op_of.ArrayUpdate (operand_value s values index) (map (operand_value s values) operands.now)) own)) }
{
    match at(operands, 1) {
        Some(element) => match at(operands, 0) {
            Some(array) => selections::updated(alloc, wires, scope, *array, *element, index),
            None => Ok(Seq::new(alloc)),
        },
        None => Ok(Seq::new(alloc)),
    }
}

/// The literals of a value that is written out.
fn literals(alloc: Global, ty: &IrType, constant: &Constant) -> Result<Seq<Atom>, AllocError>
    ensures { IfOk result (λ own. own ≡ literals_of (constant_value (ty_of ty.now) constant.now)) }
{
    let mut atoms = Vec::new(alloc);
    let ty = ty.to_ty(alloc)?;
    let value = constant.to_value(alloc, &ty)?;
    push_literals(&value, &mut atoms)?;
    Ok(Seq::from_vec(atoms))
}
