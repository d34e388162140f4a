ghost use Rattle.std.specs.Prelude.{◌≡◌, ◌∷◌, drop, take, reverse, slice_get, Some, None, IfOk, MatchBool};
ghost use Rattle.dslx_interp.specs.Eval.Inner.Operations.{operated, put_on, tuple_on, array_on};

use crate::operate::{
    binary_value, cast_value, element, indexed, part_value, slice_value, unary_value, updated,
};
use base::stacks::Stack;
use dslx_core::{CoreBinary, CoreUnary, Sign};
use std::alloc::{AllocError, Global};
use xb_value::{Seq, Value};

/// What is made of the values on the top of a stack.
#[derive(Clone, Copy, PartialEq, Eq)]
pub(crate) enum Operation {
    /// A tuple of so many.
    Tuple(usize),
    /// An array of so many.
    Array(usize),
    Unary(CoreUnary),
    Binary(CoreBinary),
    /// To so many bits, where the source is read so.
    Cast(Sign, u8),
    /// So many bits, behind so many.
    Slice(u8, u8),
    /// So many bits from a bit on.
    Part(u8),
    /// The part of this number.
    Element(u64),
    Index,
    Update,
}

/// Puts what an operation makes in place of the values that it takes from the top, and says whether they are of its kind.
pub(crate) fn operate(
    alloc: Global,
    operation: Operation,
    values: &mut Stack<Value>,
) -> Result<bool, AllocError>
    ensures { IfOk result (λ fits. MatchBool fits (operated operation values.old ≡ Some values.new) (operated operation values.old ≡ None)) }
{
    match operation {
        Operation::Tuple(count) => make_tuple(count, values),
        Operation::Array(count) => make_array(count, values),
        Operation::Unary(op) => {
            let value = values.pop();
            put(values, unary_value(op, &value))
        }
        Operation::Binary(op) => {
            let right = values.pop();
            let left = values.pop();
            put(values, binary_value(op, &left, &right))
        }
        Operation::Cast(sign, width) => {
            let value = values.pop();
            put(values, cast_value(sign, width, &value))
        }
        Operation::Slice(from, width) => {
            let value = values.pop();
            put(values, slice_value(&value, from, width))
        }
        Operation::Part(width) => {
            let start = values.pop();
            let value = values.pop();
            put(values, part_value(&value, &start, width))
        }
        Operation::Element(number) => take_element(alloc, number, values),
        Operation::Index => take_indexed(alloc, values),
        Operation::Update => {
            let new = values.pop();
            let place = values.pop();
            let array = values.pop();
            put(values, updated(array, &place, new))
        }
    }
}

/// Puts a value on a stack, and says whether there is one.
pub(crate) fn put(values: &mut Stack<Value>, value: Option<Value>) -> Result<bool, AllocError>
    ensures { IfOk result (λ fits. MatchBool fits (put_on value values.old ≡ Some values.new) (put_on value values.old ≡ None)) }
{
    match value {
        Some(value) => {
            values.push(value)?;
            Ok(true)
        }
        None => Ok(false),
    }
}

fn make_tuple(count: usize, values: &mut Stack<Value>) -> Result<bool, AllocError>
    ensures { IfOk result (λ fits. MatchBool fits (tuple_on count values.old ≡ Some values.new) (tuple_on count values.old ≡ None)) }
{
    let parts = values.take_top(count)?;
    values.push(Value::Tuple(Seq::from_vec(parts)))?;
    Ok(true)
}

fn make_array(count: usize, values: &mut Stack<Value>) -> Result<bool, AllocError>
    ensures { IfOk result (λ fits. MatchBool fits (array_on count values.old ≡ Some values.new) (array_on count values.old ≡ None)) }
{
    let elements = values.take_top(count)?;
    values.push(Value::Array(Seq::from_vec(elements)))?;
    Ok(true)
}

fn take_element(alloc: Global, number: u64, values: &mut Stack<Value>) -> Result<bool, AllocError>
    ensures { IfOk result (λ fits. MatchBool fits
        (operated (Operation.Element number) values.old ≡ Some values.new) (operated (Operation.Element number) values.old ≡ None)) }
{
    let value = values.pop();
    let part = element(alloc, &value, number)?;
    put(values, part)
}

fn take_indexed(alloc: Global, values: &mut Stack<Value>) -> Result<bool, AllocError>
    ensures { IfOk result (λ fits. MatchBool fits (operated Operation.Index values.old ≡ Some values.new) (operated Operation.Index values.old ≡ None)) }
{
    let place = values.pop();
    let array = values.pop();
    let found = indexed(alloc, &array, &place)?;
    put(values, found)
}
