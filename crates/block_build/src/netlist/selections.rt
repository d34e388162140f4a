//! The signals of nodes that choose among values, or take parts of them.

ghost use Rattle.std.specs.Prelude.{◌≡◌, [], ◌∷◌, ◌++◌, length, map, List, IfOk};
ghost use Rattle.delay_model.specs.declared.op.Op.TheVariants as op;
ghost use Rattle.xb_bits.specs.Word.{Word};
ghost use Rattle.ir_tree.specs.declared.ir_type.IrType.{IrType as AnyType};
ghost use Rattle.ir_tree.specs.NodeValues.{operand_value, optional_value};
ghost use Rattle.ir_tree.specs.Operations.{chosen, index_value, of_one, on_word};
ghost use Rattle.ir_tree.specs.Rules.Fitting.{index_fits, sel_fits};
ghost use Rattle.block_build.specs.Netlist.Added.{AddsWires};
ghost use Rattle.block_build.specs.Netlist.Choices.{ShowsChosen, ShowsElement};
ghost use Rattle.block_build.specs.Netlist.Leaves.{parts_of as parts_by, repeated};
ghost use Rattle.block_build.specs.Netlist.Nodes.{optional_read};
ghost use Rattle.block_build.specs.Netlist.Pure.{scope_types, shown_in, operand_size, operand_part, ShowsResult};

use crate::netlist::choices::{select, update};
use crate::netlist::leaves::widths_of;
use crate::netlist::parts::{elements_of, numbers_of, part_at};
use crate::netlist::scopes::{Number, Scope, all_of};
use crate::netlist::wires::WireList;
use ir_tree::node_types::parts_of;
use ir_tree::{IrType, Operand};
use std::alloc::{AllocError, Global};
use vlog_tree::Atom;
use xb_value::Seq;

/// One of several values, by a number: the last of them where there is no default and the number is none of an earlier one.
pub fn selected(
    alloc: Global,
    wires: &mut WireList,
    scope: Scope,
    selector: Operand,
    ty: &IrType,
    cases: &[Operand],
    default: Option<Operand>,
) -> Result<Seq<Atom>, AllocError>
    ensures { IfOk result (λ own. AddsWires wires.old wires.new (λ v.
        ShowsResult v scope.entry (selector ∷ cases.now ++ optional_read default) ty.now (sel_fits cases.now default (scope_types scope.entry) (selector ∷ []) ty.now)
        (λ s values. of_one (on_word (λ (x : Word). optional_value s values (chosen cases.now default x.value))) (operand_value s values selector ∷ [])) own)) }
{
    let number = scope.number(alloc, selector)?;
    let widths = widths_of(alloc, ty)?;
    match default {
        Some(default) => one_of(alloc, wires, scope, number, &widths, cases, default),
        None => match cases {
            [] => Ok(Seq::new(alloc)),
            [cases @ .., last] => one_of(alloc, wires, scope, number, &widths, cases, *last),
        },
    }
}

/// The operand of an index, another where the index is past them.
fn one_of(
    alloc: Global,
    wires: &mut WireList,
    scope: Scope,
    number: Number,
    widths: &[u64],
    cases: &[Operand],
    other: Operand,
) -> Result<Seq<Atom>, AllocError>
    ensures { IfOk result (λ own. AddsWires wires.old wires.new (λ v.
        ShowsChosen v number.atom number.width (length widths.now) (map (shown_in scope.entry) cases.now) (shown_in scope.entry other) (length cases.now) own)) }
{
    let values = scope.operands(alloc, cases)?;
    let other = scope.operand(alloc, other)?;
    select(
        alloc,
        wires,
        number.atom,
        number.width,
        widths,
        &values,
        other,
    )
}

/// A part of a tuple.
pub fn part(
    alloc: Global,
    scope: Scope,
    tuple: Operand,
    index: u128,
) -> Result<Seq<Atom>, AllocError>
    ensures { IfOk result (λ own. own ≡ operand_part scope.entry tuple index) }
{
    let atoms = scope.operand(alloc, tuple)?;
    match scope.type_of(tuple) {
        Some(ty) => match parts_of(ty) {
            Some(parts) => part_at(alloc, parts, atoms.as_slice(), index),
            None => Ok(Seq::new(alloc)),
        },
        None => Ok(Seq::new(alloc)),
    }
}

/// The elements of an array, each with so many signals.
fn array_elements(
    alloc: Global,
    scope: Scope,
    array: Operand,
    each: usize,
) -> Result<Vec<Seq<Atom>>, AllocError>
    ensures { IfOk result (λ elements. elements.items ≡ parts_by (repeated (operand_size scope.entry array) (each ∷ [])) (shown_in scope.entry array)) }
{
    let atoms = scope.operand(alloc, array)?;
    elements_of(alloc, atoms.as_slice(), scope.size_of(array), each)
}

/// The element of an array at the index that a number has, the last one where it is past the end.
pub fn element(
    alloc: Global,
    wires: &mut WireList,
    scope: Scope,
    array: Operand,
    ty: &IrType,
    index: Operand,
) -> Result<Seq<Atom>, AllocError>
    ensures { IfOk result (λ own. AddsWires wires.old wires.new (λ v.
        ShowsResult v scope.entry (array ∷ index ∷ []) ty.now (index_fits op.ArrayIndex index (scope_types scope.entry) (array ∷ []) ty.now)
        (λ s values. index_value op.ArrayIndex (operand_value s values index) (operand_value s values array ∷ [])) own)) }
{
    let number = scope.number(alloc, index)?;
    let widths = widths_of(alloc, ty)?;
    let elements = array_elements(alloc, scope, array, widths.len())?;
    element_at(alloc, wires, number, &widths, &elements)
}

/// The element at the index that a number has, the last one where it is past the end.
fn element_at(
    alloc: Global,
    wires: &mut WireList,
    number: Number,
    widths: &[u64],
    elements: &[Seq<Atom>],
) -> Result<Seq<Atom>, AllocError>
    ensures { IfOk result (λ own. AddsWires wires.old wires.new (λ v. ShowsElement v number.atom number.width (length widths.now) elements.now own)) }
{
    match elements {
        [] => Ok(Seq::new(alloc)),
        [elements @ .., last] => {
            let last = Seq::from_slice(alloc, last.as_slice())?;
            let most = numbers_of(number.width, elements.len());
            select(
                alloc,
                wires,
                number.atom,
                number.width,
                widths,
                &elements[..most],
                last,
            )
        }
    }
}

/// An array with another element at the index that a number has.
pub fn updated(
    alloc: Global,
    wires: &mut WireList,
    scope: Scope,
    array: Operand,
    element: Operand,
    index: Operand,
) -> Result<Seq<Atom>, AllocError>
    ensures { IfOk result (λ own. AddsWires wires.old wires.new (λ v. (t : AnyType) →
        ShowsResult v scope.entry (array ∷ element ∷ index ∷ []) t (index_fits op.ArrayUpdate index (scope_types scope.entry) (array ∷ element ∷ []) t)
        (λ s values. index_value op.ArrayUpdate (operand_value s values index) (operand_value s values array ∷ operand_value s values element ∷ [])) own)) }
{
    let number = scope.number(alloc, index)?;
    let widths = scope.widths_of(alloc, element)?;
    let elements = array_elements(alloc, scope, array, widths.len())?;
    let new = scope.operand(alloc, element)?;
    let results = update(
        alloc,
        wires,
        number.atom,
        number.width,
        &widths,
        &elements,
        new.as_slice(),
    )?;
    all_of(alloc, &results)
}
