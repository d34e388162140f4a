//! Operands, and the values of nodes that are no sites.

ghost use Rattle.std.specs.Prelude.{◌≡◌, [], map, slice_set, IfOk};
ghost use Rattle.xb_value.specs.declared.value.Value.{Tuple, Array};
ghost use Rattle.delay_model.specs.declared.op.Op.TheVariants as ops;
ghost use Rattle.ir_tree.specs.Operations.{plain_value, on_word, on_tuple, on_array, chosen, element_at, at_index, updated, index_value, longer_value};
ghost use Rattle.ir_tree.specs.NodeValues.{operand_value, optional_value, pure_value, is_on};

use crate::operation::{
    binary, compare, dynamic_slice, extend, nothing, reduce, shift, slice, unary,
};
use crate::width::number_where;
use delay_model::{Binary, Compare, Op, Reduce, Shift, Unary};
use ir_tree::{Attributes, Node, Operand};
use std::alloc::{AllocError, Global};
use xb_value::{Seq, Value};

/// What operands mean: the state, and the values of the nodes before.
#[derive(Clone, Copy)]
pub struct Scope<'a> {
    pub state: &'a Value,
    pub values: &'a [Value],
    /// `()`, the value of an operand that isn't there.
    pub nothing: &'a Value,
}

impl<'a> Scope<'a> {
    ghost use Rattle.std.specs.Prelude.{◌≡◌, []};
    ghost use Rattle.xb_value.specs.declared.value.Value.{Tuple};
    ghost use Rattle.ir_tree.specs.NodeValues.{operand_value};

    /// The value of an operand.
    pub fn value_of(&self, operand: Operand) -> &'a Value
        requires { self.now.nothing.now ≡ Tuple [] }
        ensures { result.now ≡ operand_value self.now.state.now self.now.values.now operand }
    {
        match operand {
            Operand::State => self.state,
            Operand::Node(place) => match self.values.get(place as usize) {
                Some(value) => value,
                None => self.nothing,
            },
        }
    }
}

/// Whether a site with this predicate is on.
pub fn is_on(scope: &Scope, predicate: Option<Operand>) -> bool
    requires { scope.now.nothing.now ≡ Tuple [] }
    ensures { result ≡ is_on scope.now.state.now scope.now.values.now predicate }
{
    match predicate {
        None => true,
        Some(operand) => match scope.value_of(operand) {
            Value::Bits(bits) => bits.value() == 1,
            Value::Tuple(_) => false,
            Value::Array(_) => false,
        },
    }
}

/// Copies of the values of operands.
fn values_of(alloc: Global, scope: &Scope, operands: &[Operand]) -> Result<Seq<Value>, AllocError>
    requires { scope.now.nothing.now ≡ Tuple [] }
    ensures { IfOk result (λ vs. vs ≡ map (operand_value scope.now.state.now scope.now.values.now) operands.now) }
{
    let mut values = Vec::new(alloc);
    'operands: for operand in operands {
        values.push(scope.value_of(*operand).copy(alloc)?)?;
    }
    Ok(Seq::from_vec(values))
}

/// Two numbers of one width, and one of that width.
fn binary_value(alloc: Global, op: Binary, scope: &Scope, operands: &[Operand]) -> Value
    requires { scope.now.nothing.now ≡ Tuple [] }
    ensures { result ≡ plain_value (ops.Binary op) (map (operand_value scope.now.state.now scope.now.values.now) operands.now) }
{
    match operands {
        [first, second] => binary(alloc, op, scope.value_of(*first), scope.value_of(*second)),
        _ => nothing(alloc),
    }
}

/// Two numbers of one width, and a bit.
fn compare_value(alloc: Global, op: Compare, scope: &Scope, operands: &[Operand]) -> Value
    requires { scope.now.nothing.now ≡ Tuple [] }
    ensures { result ≡ plain_value (ops.Compare op) (map (operand_value scope.now.state.now scope.now.values.now) operands.now) }
{
    match operands {
        [first, second] => compare(alloc, op, scope.value_of(*first), scope.value_of(*second)),
        _ => nothing(alloc),
    }
}

/// A number and an amount.
fn shift_value(alloc: Global, op: Shift, scope: &Scope, operands: &[Operand]) -> Value
    requires { scope.now.nothing.now ≡ Tuple [] }
    ensures { result ≡ plain_value (ops.Shift op) (map (operand_value scope.now.state.now scope.now.values.now) operands.now) }
{
    match operands {
        [first, second] => shift(alloc, op, scope.value_of(*first), scope.value_of(*second)),
        _ => nothing(alloc),
    }
}

/// A number, and one of its width.
fn unary_value(alloc: Global, op: Unary, scope: &Scope, operands: &[Operand]) -> Value
    requires { scope.now.nothing.now ≡ Tuple [] }
    ensures { result ≡ plain_value (ops.Unary op) (map (operand_value scope.now.state.now scope.now.values.now) operands.now) }
{
    match operands {
        [operand] => unary(alloc, op, scope.value_of(*operand)),
        _ => nothing(alloc),
    }
}

/// A number, and a bit.
fn reduce_value(alloc: Global, op: Reduce, scope: &Scope, operands: &[Operand]) -> Value
    requires { scope.now.nothing.now ≡ Tuple [] }
    ensures { result ≡ plain_value (ops.Reduce op) (map (operand_value scope.now.state.now scope.now.values.now) operands.now) }
{
    match operands {
        [operand] => reduce(alloc, op, scope.value_of(*operand)),
        _ => nothing(alloc),
    }
}

/// Operations without attributes.
fn plain_value(
    alloc: Global,
    op: Op,
    scope: &Scope,
    operands: &[Operand],
) -> Result<Value, AllocError>
    requires { scope.now.nothing.now ≡ Tuple [] }
    ensures { IfOk result (λ v. v ≡ plain_value op (map (operand_value scope.now.state.now scope.now.values.now) operands.now)) }
{
    match op {
        Op::Binary(op) => Ok(binary_value(alloc, op, scope, operands)),
        Op::Unary(op) => Ok(unary_value(alloc, op, scope, operands)),
        Op::Compare(op) => Ok(compare_value(alloc, op, scope, operands)),
        Op::Shift(op) => Ok(shift_value(alloc, op, scope, operands)),
        Op::Reduce(op) => Ok(reduce_value(alloc, op, scope, operands)),
        Op::Concat => {
            let parts = Value::Tuple(values_of(alloc, scope, operands)?);
            Ok(number_where(alloc, &parts))
        }
        Op::Tuple => Ok(Value::Tuple(values_of(alloc, scope, operands)?)),
        Op::Array => Ok(Value::Array(values_of(alloc, scope, operands)?)),
        _ => Ok(nothing(alloc)),
    }
}

/// The case of a number, else the default.
#[tactic(auto, using(crate::proofs::Cases::chosen_cases))]
fn chosen(cases: &[Operand], default: Option<Operand>, number: u128) -> Option<Operand>
    ensures { result ≡ chosen cases.now default number }
{
    if number < cases.len() as u128 {
        Some(cases[number as usize])
    } else {
        default
    }
}

fn optional_value(
    alloc: Global,
    scope: &Scope,
    operand: Option<Operand>,
) -> Result<Value, AllocError>
    requires { scope.now.nothing.now ≡ Tuple [] }
    ensures { IfOk result (λ v. v ≡ optional_value scope.now.state.now scope.now.values.now operand) }
{
    match operand {
        Some(operand) => scope.value_of(operand).copy(alloc),
        None => Ok(nothing(alloc)),
    }
}

/// The case that the selector chooses.
fn select(
    alloc: Global,
    scope: &Scope,
    cases: &[Operand],
    default: Option<Operand>,
    selector: &Value,
) -> Result<Value, AllocError>
    requires { scope.now.nothing.now ≡ Tuple [] }
    ensures { IfOk result (λ v. v ≡ on_word (λ x. optional_value scope.now.state.now scope.now.values.now (chosen cases.now default x.value)) selector.now) }
{
    match selector {
        Value::Bits(bits) => optional_value(alloc, scope, chosen(cases, default, bits.value())),
        Value::Tuple(_) => Ok(nothing(alloc)),
        Value::Array(_) => Ok(nothing(alloc)),
    }
}

/// A copy of the value at an index.
fn element_at(alloc: Global, index: u128, values: &[Value]) -> Result<Value, AllocError>
    ensures { IfOk result (λ v. v ≡ element_at index values.now) }
{
    if index < values.len() as u128 {
        values[index as usize].copy(alloc)
    } else {
        Ok(nothing(alloc))
    }
}

fn tuple_index(alloc: Global, index: u128, tuple: &Value) -> Result<Value, AllocError>
    ensures { IfOk result (λ v. v ≡ on_tuple (element_at index) tuple.now) }
{
    match tuple {
        Value::Tuple(parts) => element_at(alloc, index, parts.as_slice()),
        Value::Bits(_) => Ok(nothing(alloc)),
        Value::Array(_) => Ok(nothing(alloc)),
    }
}

fn array_index(alloc: Global, array: &Value, index: &Value) -> Result<Value, AllocError>
    ensures { IfOk result (λ v. v ≡ on_array (λ xs. on_word (at_index xs) index.now) array.now) }
{
    match array {
        Value::Array(parts) => match index {
            Value::Bits(bits) => {
                let last = parts.len().saturating_sub(1) as u128;
                element_at(alloc, bits.value().min(last), parts.as_slice())
            }
            Value::Tuple(_) => Ok(nothing(alloc)),
            Value::Array(_) => Ok(nothing(alloc)),
        },
        Value::Bits(_) => Ok(nothing(alloc)),
        Value::Tuple(_) => Ok(nothing(alloc)),
    }
}

/// Copies of the values, with another at an index.
fn updated(alloc: Global, values: &[Value], place: u128, value: &Value) -> Result<Value, AllocError>
    ensures { IfOk result (λ v. v ≡ Array (slice_set values.now place value.now)) }
{
    let mut copies = Vec::new(alloc);
    'values: for own in values {
        copies.push(own.copy(alloc)?)?;
    }
    if place < values.len() as u128 {
        copies[place as usize] = value.copy(alloc)?;
    }
    Ok(Value::Array(Seq::from_vec(copies)))
}

fn array_update(
    alloc: Global,
    array: &Value,
    element: &Value,
    index: &Value,
) -> Result<Value, AllocError>
    ensures { IfOk result (λ v. v ≡ on_array (λ xs. on_word (updated element.now xs) index.now) array.now) }
{
    match array {
        Value::Array(parts) => match index {
            Value::Bits(bits) => updated(alloc, parts.as_slice(), bits.value(), element),
            Value::Tuple(_) => Ok(nothing(alloc)),
            Value::Array(_) => Ok(nothing(alloc)),
        },
        Value::Bits(_) => Ok(nothing(alloc)),
        Value::Tuple(_) => Ok(nothing(alloc)),
    }
}

fn index_value(
    alloc: Global,
    op: Op,
    scope: &Scope,
    index: Operand,
    operands: &[Operand],
) -> Result<Value, AllocError>
    requires { scope.now.nothing.now ≡ Tuple [] }
    ensures { IfOk result (λ v. v ≡ index_value op (operand_value scope.now.state.now scope.now.values.now index) (map (operand_value scope.now.state.now scope.now.values.now) operands.now)) }
{
    let index = scope.value_of(index);
    match op {
        Op::ArrayIndex => match operands {
            [array] => array_index(alloc, scope.value_of(*array), index),
            _ => Ok(nothing(alloc)),
        },
        Op::ArrayUpdate => match operands {
            [array, element] => {
                array_update(
                    alloc,
                    scope.value_of(*array),
                    scope.value_of(*element),
                    index,
                )
            }
            _ => Ok(nothing(alloc)),
        },
        _ => Ok(nothing(alloc)),
    }
}

fn longer_value(alloc: Global, op: Op, scope: &Scope, width: u128, operands: &[Operand]) -> Value
    requires { scope.now.nothing.now ≡ Tuple [] }
    ensures { result ≡ longer_value op width (map (operand_value scope.now.state.now scope.now.values.now) operands.now) }
{
    match op {
        Op::Extend(op) => match operands {
            [operand] => extend(alloc, op, width, scope.value_of(*operand)),
            _ => nothing(alloc),
        },
        _ => nothing(alloc),
    }
}

/// The value of a node that is no site.
pub fn pure_value(alloc: Global, scope: &Scope, node: &Node) -> Result<Value, AllocError>
    requires { scope.now.nothing.now ≡ Tuple [] }
    ensures { IfOk result (λ v. v ≡ pure_value node.now scope.now.state.now scope.now.values.now) }
{
    let operands = node.operands.as_slice();
    match &node.attributes {
        Attributes::None => plain_value(alloc, node.op, scope, operands),
        Attributes::StartAndWidth(start, width) => match operands {
            [operand] => Ok(slice(alloc, *start, *width, scope.value_of(*operand))),
            _ => Ok(nothing(alloc)),
        },
        Attributes::Width(width) => match operands {
            [operand, start] => Ok(dynamic_slice(
                alloc,
                *width,
                scope.value_of(*operand),
                scope.value_of(*start),
            )),
            _ => Ok(nothing(alloc)),
        },
        Attributes::NewBitCount(width) => {
            Ok(longer_value(alloc, node.op, scope, *width, operands))
        }
        Attributes::Cases(cases, default) => match operands {
            [selector] => {
                select(
                    alloc,
                    scope,
                    cases.as_slice(),
                    *default,
                    scope.value_of(*selector),
                )
            }
            _ => Ok(nothing(alloc)),
        },
        Attributes::Index(index) => match operands {
            [operand] => tuple_index(alloc, *index, scope.value_of(*operand)),
            _ => Ok(nothing(alloc)),
        },
        Attributes::Indices(index) => index_value(alloc, node.op, scope, *index, operands),
        Attributes::Value(constant) => {
            let ty = node.ty.to_ty(alloc)?;
            constant.to_value(alloc, &ty)
        }
        Attributes::Channel(_, _) => Ok(nothing(alloc)),
    }
}
