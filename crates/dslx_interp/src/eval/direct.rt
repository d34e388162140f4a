//! Values by recursion, as deep as the processor's stack surely goes, and by the machine below that.
//!
//! What an operation reads is worked out and let go; nothing is copied but what a number of a bound value names, and of that only the
//! part that is read where it's an element or an index.

ghost use Rattle.std.specs.Prelude.{◌≡◌, map, take, length, slice_get, Some, None, IfOk, IfSome, OnOk, MatchBool, MatchOption};
ghost use Rattle.xb_bits.specs.Word.{word};
ghost use Rattle.xb_bits.specs.Operations.{add as add_words};
ghost use Rattle.xb_value.specs.declared.value.Value.{Bits as of_bits, Tuple as of_tuple, Array as of_array, out-Value};
ghost use Rattle.dslx_meaning.specs.Lists.{and_then, with_both};
ghost use Rattle.dslx_core.specs.CoreValues.{Functions, core_value, core_step, values_in as all_values, select, turns, one_turn as turn_by, taken_apart, tuple_values_step, array_values_step, word_in as word_by};
ghost use Rattle.dslx_core.specs.declared.expr.CoreExpr.{out-CoreExpr};
ghost use Rattle.dslx_core.specs.declared.expr.CoreExpr.TheOpen.{CoreExpr-F};
ghost use Rattle.dslx_interp.specs.Eval.Inner.Direct.{calls_of, arm_den, layer, read_at};

use crate::eval::stepping::machine_value;
use crate::operate::{
    binary_given, binary_word_given, cast_given, cast_word_given, element, is_one_given,
    part_value, place_of, slice_value, take_first, take_whole, unary_given, updated, value_at,
    word_of, word_of_one, word_of_slot,
};
use dslx_core::{Arm, CoreBinary, CoreExpr, CoreUnary, Function, Shape, Sign};
use std::alloc::{AllocError, Global};
use xb_bits::{Bits, add, zext};
use xb_value::{Seq, Value};

/// The value of an expression over these bound values, unless it has none. `functions` are those that it may call, each of which
/// calls only those before it. Past so many levels of expressions and calls, one in another, the machine works it out.
#[cycle(direct)]
pub(crate) fn value_in(
    alloc: Global,
    functions: &[Function],
    levels: u32,
    expr: &CoreExpr,
    bound: &mut Vec<Value>,
) -> Result<Option<Value>, AllocError>
    ensures value { IfOk result (λ v. v ≡ core_value expr.now (calls_of functions.now) bound.old.items) }
    ensures stays { OnOk result (bound.new.items ≡ bound.old.items) }
{
    if levels == 0 {
        return value_by_machine(alloc, functions, expr, bound.as_slice());
    }
    layer_in(alloc, functions, levels - 1, expr, bound)
}

/// The same by the machine, which gets copies of what is bound.
fn value_by_machine(
    alloc: Global,
    functions: &[Function],
    expr: &CoreExpr,
    bound: &[Value],
) -> Result<Option<Value>, AllocError>
    ensures { IfOk result (λ v. v ≡ core_value expr.now (calls_of functions.now) bound.now) }
{
    let copies = copies_of(alloc, bound)?;
    machine_value(alloc, functions, expr, copies)
}

fn copies_of(alloc: Global, values: &[Value]) -> Result<Vec<Value>, AllocError>
    ensures { IfOk result (λ copies. copies.items ≡ values.now) }
{
    let mut copies = Vec::new(alloc);
    'values: for value in values {
        copies.push(value.copy(alloc)?)?;
    }
    Ok(copies)
}

/// The value of an expression by those of its parts.
#[cycle(direct)]
fn layer_in(
    alloc: Global,
    functions: &[Function],
    levels: u32,
    expr: &CoreExpr,
    bound: &mut Vec<Value>,
) -> Result<Option<Value>, AllocError>
    ensures value { IfOk result (λ v. v ≡ layer (out-CoreExpr expr.now) (calls_of functions.now) bound.old.items) }
    ensures stays { OnOk result (bound.new.items ≡ bound.old.items) }
{
    match expr {
        CoreExpr::Literal(value) => copied(alloc, value),
        CoreExpr::Slot(number) => value_at(alloc, bound.as_slice(), *number),
        CoreExpr::Tuple(parts) => tuple_in(alloc, functions, levels, parts.as_slice(), bound),
        CoreExpr::Array(parts) => array_in(alloc, functions, levels, parts.as_slice(), bound),
        CoreExpr::Unary(op, expr) => unary_in(alloc, functions, levels, *op, expr.get(), bound),
        CoreExpr::Binary(op, left, right) => {
            binary_in(
                alloc,
                functions,
                levels,
                *op,
                left.get(),
                right.get(),
                bound,
            )
        }
        CoreExpr::Cast(sign, width, expr) => {
            cast_in(alloc, functions, levels, *sign, *width, expr.get(), bound)
        }
        CoreExpr::Slice(expr, from, width) => {
            slice_in(alloc, functions, levels, expr.get(), *from, *width, bound)
        }
        CoreExpr::Part(expr, start, width) => {
            part_in(
                alloc,
                functions,
                levels,
                expr.get(),
                start.get(),
                *width,
                bound,
            )
        }
        CoreExpr::Element(tuple, number) => {
            element_in(alloc, functions, levels, tuple.get(), *number, bound)
        }
        CoreExpr::Index(array, place) => {
            index_in(alloc, functions, levels, array.get(), place.get(), bound)
        }
        CoreExpr::Update(array, place, new) => {
            update_in(
                alloc,
                functions,
                levels,
                array.get(),
                place.get(),
                new.get(),
                bound,
            )
        }
        CoreExpr::Bind(expr, shape, body) => {
            bind_in(
                alloc,
                functions,
                levels,
                expr.get(),
                shape,
                body.get(),
                bound,
            )
        }
        CoreExpr::Choose(test, yes, no) => {
            choose_in(
                alloc,
                functions,
                levels,
                test.get(),
                yes.get(),
                no.get(),
                bound,
            )
        }
        CoreExpr::Select(expr, arms) => {
            select_in(alloc, functions, levels, expr.get(), arms.as_slice(), bound)
        }
        CoreExpr::Loop(count, from, index, shape, body, start) => {
            loop_in(
                alloc,
                functions,
                levels,
                *count,
                *from,
                index,
                shape,
                body.get(),
                start.get(),
                bound,
            )
        }
        CoreExpr::Call(number, operands) => {
            call_in(
                alloc,
                functions,
                levels,
                *number,
                operands.as_slice(),
                bound,
            )
        }
    }
}

/// The word that the value of an expression is, unless it is none.
#[cycle(direct)]
fn word_in(
    alloc: Global,
    functions: &[Function],
    levels: u32,
    expr: &CoreExpr,
    bound: &mut Vec<Value>,
) -> Result<Option<Bits>, AllocError>
    ensures value { IfOk result (λ w. w ≡ word_by (core_value expr.now) (calls_of functions.now) bound.old.items) }
    ensures stays { OnOk result (bound.new.items ≡ bound.old.items) }
{
    if levels == 0 {
        let value = value_by_machine(alloc, functions, expr, bound.as_slice())?;
        return Ok(word_of(&value));
    }
    word_layer(alloc, functions, levels - 1, expr, bound)
}

/// The same, by the parts of the expression. A word that is bound isn't copied to a value first.
#[cycle(direct)]
fn word_layer(
    alloc: Global,
    functions: &[Function],
    levels: u32,
    expr: &CoreExpr,
    bound: &mut Vec<Value>,
) -> Result<Option<Bits>, AllocError>
    ensures value { IfOk result (λ w. w ≡ word_by (layer (out-CoreExpr expr.now)) (calls_of functions.now) bound.old.items) }
    ensures stays { OnOk result (bound.new.items ≡ bound.old.items) }
{
    match expr {
        CoreExpr::Literal(value) => Ok(word_of_one(value)),
        CoreExpr::Slot(number) => Ok(word_of_slot(bound.as_slice(), *number)),
        CoreExpr::Binary(op, left, right) => {
            binary_word_in(
                alloc,
                functions,
                levels,
                *op,
                left.get(),
                right.get(),
                bound,
            )
        }
        CoreExpr::Cast(sign, width, expr) => {
            cast_word_in(alloc, functions, levels, *sign, *width, expr.get(), bound)
        }
        _ => other_word_in(alloc, functions, levels, expr, bound),
    }
}

/// The same by way of the value.
#[cycle(direct)]
fn other_word_in(
    alloc: Global,
    functions: &[Function],
    levels: u32,
    expr: &CoreExpr,
    bound: &mut Vec<Value>,
) -> Result<Option<Bits>, AllocError>
    ensures value { IfOk result (λ w. w ≡ word_by (layer (out-CoreExpr expr.now)) (calls_of functions.now) bound.old.items) }
    ensures stays { OnOk result (bound.new.items ≡ bound.old.items) }
{
    let value = layer_in(alloc, functions, levels, expr, bound)?;
    Ok(word_of(&value))
}

#[cycle(direct)]
fn binary_word_in(
    alloc: Global,
    functions: &[Function],
    levels: u32,
    op: CoreBinary,
    left: &CoreExpr,
    right: &CoreExpr,
    bound: &mut Vec<Value>,
) -> Result<Option<Bits>, AllocError>
    ensures value { IfOk result (λ w. w ≡ word_by (core_step (CoreExpr-F.Binary op (core_value left.now) (core_value right.now))) (calls_of functions.now) bound.old.items) }
    ensures stays { OnOk result (bound.new.items ≡ bound.old.items) }
{
    let first = word_in(alloc, functions, levels, left, bound)?;
    let second = word_in(alloc, functions, levels, right, bound)?;
    Ok(binary_word_given(op, first, second))
}

#[cycle(direct)]
fn cast_word_in(
    alloc: Global,
    functions: &[Function],
    levels: u32,
    sign: Sign,
    width: u8,
    expr: &CoreExpr,
    bound: &mut Vec<Value>,
) -> Result<Option<Bits>, AllocError>
    ensures value { IfOk result (λ w. w ≡ word_by (core_step (CoreExpr-F.Cast sign width (core_value expr.now))) (calls_of functions.now) bound.old.items) }
    ensures stays { OnOk result (bound.new.items ≡ bound.old.items) }
{
    let word = word_in(alloc, functions, levels, expr, bound)?;
    Ok(cast_word_given(sign, width, word))
}

fn copied(alloc: Global, value: &Value) -> Result<Option<Value>, AllocError>
    ensures { IfOk result (λ v. v ≡ Some value.now) }
{
    Ok(Some(value.copy(alloc)?))
}

/// The values of these, in order, unless one has none.
#[cycle(direct)]
fn each_in(
    alloc: Global,
    functions: &[Function],
    levels: u32,
    exprs: &[CoreExpr],
    bound: &mut Vec<Value>,
) -> Result<Option<Vec<Value>>, AllocError>
    ensures value { IfOk result (λ vs. MatchOption vs (all_values (map core_value exprs.now) (calls_of functions.now) bound.old.items ≡ None)
        (λ values. all_values (map core_value exprs.now) (calls_of functions.now) bound.old.items ≡ Some values.items)) }
    ensures stays { OnOk result (bound.new.items ≡ bound.old.items) }
{
    let mut values = Vec::with_capacity(alloc, exprs.len())?;
    'parts: for i in 0..exprs.len() {
        match value_in(alloc, functions, levels, &exprs[i], bound)? {
            Some(value) => values.push(value)?,
            None => return Ok(None),
        }
    }
    Ok(Some(values))
}

#[cycle(direct)]
fn tuple_in(
    alloc: Global,
    functions: &[Function],
    levels: u32,
    parts: &[CoreExpr],
    bound: &mut Vec<Value>,
) -> Result<Option<Value>, AllocError>
    ensures value { IfOk result (λ v. v ≡ and_then (all_values (map core_value parts.now) (calls_of functions.now) bound.old.items) (λ vs. Some (of_tuple vs))) }
    ensures stays { OnOk result (bound.new.items ≡ bound.old.items) }
{
    match each_in(alloc, functions, levels, parts, bound)? {
        Some(values) => Ok(Some(Value::Tuple(Seq::from_vec(values)))),
        None => Ok(None),
    }
}

#[cycle(direct)]
fn array_in(
    alloc: Global,
    functions: &[Function],
    levels: u32,
    parts: &[CoreExpr],
    bound: &mut Vec<Value>,
) -> Result<Option<Value>, AllocError>
    ensures value { IfOk result (λ v. v ≡ and_then (all_values (map core_value parts.now) (calls_of functions.now) bound.old.items) (λ vs. Some (of_array vs))) }
    ensures stays { OnOk result (bound.new.items ≡ bound.old.items) }
{
    match each_in(alloc, functions, levels, parts, bound)? {
        Some(values) => Ok(Some(Value::Array(Seq::from_vec(values)))),
        None => Ok(None),
    }
}

#[cycle(direct)]
fn unary_in(
    alloc: Global,
    functions: &[Function],
    levels: u32,
    op: CoreUnary,
    expr: &CoreExpr,
    bound: &mut Vec<Value>,
) -> Result<Option<Value>, AllocError>
    ensures value { IfOk result (λ v. v ≡ core_step (CoreExpr-F.Unary op (core_value expr.now)) (calls_of functions.now) bound.old.items) }
    ensures stays { OnOk result (bound.new.items ≡ bound.old.items) }
{
    let word = word_in(alloc, functions, levels, expr, bound)?;
    Ok(unary_given(op, word))
}

#[cycle(direct)]
fn binary_in(
    alloc: Global,
    functions: &[Function],
    levels: u32,
    op: CoreBinary,
    left: &CoreExpr,
    right: &CoreExpr,
    bound: &mut Vec<Value>,
) -> Result<Option<Value>, AllocError>
    ensures value { IfOk result (λ v. v ≡ core_step (CoreExpr-F.Binary op (core_value left.now) (core_value right.now)) (calls_of functions.now) bound.old.items) }
    ensures stays { OnOk result (bound.new.items ≡ bound.old.items) }
{
    let first = word_in(alloc, functions, levels, left, bound)?;
    let second = word_in(alloc, functions, levels, right, bound)?;
    Ok(binary_given(op, first, second))
}

#[cycle(direct)]
fn cast_in(
    alloc: Global,
    functions: &[Function],
    levels: u32,
    sign: Sign,
    width: u8,
    expr: &CoreExpr,
    bound: &mut Vec<Value>,
) -> Result<Option<Value>, AllocError>
    ensures value { IfOk result (λ v. v ≡ core_step (CoreExpr-F.Cast sign width (core_value expr.now)) (calls_of functions.now) bound.old.items) }
    ensures stays { OnOk result (bound.new.items ≡ bound.old.items) }
{
    let word = word_in(alloc, functions, levels, expr, bound)?;
    Ok(cast_given(sign, width, word))
}

#[cycle(direct)]
fn slice_in(
    alloc: Global,
    functions: &[Function],
    levels: u32,
    expr: &CoreExpr,
    from: u8,
    width: u8,
    bound: &mut Vec<Value>,
) -> Result<Option<Value>, AllocError>
    ensures value { IfOk result (λ v. v ≡ core_step (CoreExpr-F.Slice (core_value expr.now) from width) (calls_of functions.now) bound.old.items) }
    ensures stays { OnOk result (bound.new.items ≡ bound.old.items) }
{
    let value = value_in(alloc, functions, levels, expr, bound)?;
    Ok(slice_value(&value, from, width))
}

#[cycle(direct)]
fn part_in(
    alloc: Global,
    functions: &[Function],
    levels: u32,
    expr: &CoreExpr,
    start: &CoreExpr,
    width: u8,
    bound: &mut Vec<Value>,
) -> Result<Option<Value>, AllocError>
    ensures value { IfOk result (λ v. v ≡ core_step (CoreExpr-F.Part (core_value expr.now) (core_value start.now) width) (calls_of functions.now) bound.old.items) }
    ensures stays { OnOk result (bound.new.items ≡ bound.old.items) }
{
    let value = value_in(alloc, functions, levels, expr, bound)?;
    let place = value_in(alloc, functions, levels, start, bound)?;
    Ok(part_value(&value, &place, width))
}

/// The part of a tuple, which is copied alone where the tuple is bound.
#[cycle(direct)]
fn element_in(
    alloc: Global,
    functions: &[Function],
    levels: u32,
    tuple: &CoreExpr,
    number: u64,
    bound: &mut Vec<Value>,
) -> Result<Option<Value>, AllocError>
    ensures value { IfOk result (λ v. v ≡ core_step (CoreExpr-F.Element (core_value tuple.now) number) (calls_of functions.now) bound.old.items) }
    ensures stays { OnOk result (bound.new.items ≡ bound.old.items) }
{
    match value_there(tuple, bound.as_slice()) {
        Some(value) => element_of(alloc, value, number),
        None => {
            let value = value_in(alloc, functions, levels, tuple, bound)?;
            element(alloc, &value, number)
        }
    }
}

/// The element at an index, which is copied alone where the array is bound.
#[cycle(direct)]
fn index_in(
    alloc: Global,
    functions: &[Function],
    levels: u32,
    array: &CoreExpr,
    place: &CoreExpr,
    bound: &mut Vec<Value>,
) -> Result<Option<Value>, AllocError>
    ensures value { IfOk result (λ v. v ≡ core_step (CoreExpr-F.Index (core_value array.now) (core_value place.now)) (calls_of functions.now) bound.old.items) }
    ensures stays { OnOk result (bound.new.items ≡ bound.old.items) }
{
    let place = word_in(alloc, functions, levels, place, bound)?;
    match value_there(array, bound.as_slice()) {
        Some(value) => index_of(alloc, value, place),
        None => {
            let value = value_in(alloc, functions, levels, array, bound)?;
            indexed_given(alloc, &value, place)
        }
    }
}

#[cycle(direct)]
fn update_in(
    alloc: Global,
    functions: &[Function],
    levels: u32,
    array: &CoreExpr,
    place: &CoreExpr,
    new: &CoreExpr,
    bound: &mut Vec<Value>,
) -> Result<Option<Value>, AllocError>
    ensures value { IfOk result (λ v. v ≡ core_step (CoreExpr-F.Update (core_value array.now) (core_value place.now) (core_value new.now)) (calls_of functions.now) bound.old.items) }
    ensures stays { OnOk result (bound.new.items ≡ bound.old.items) }
{
    let place = value_in(alloc, functions, levels, place, bound)?;
    let new = value_in(alloc, functions, levels, new, bound)?;
    let array = value_in(alloc, functions, levels, array, bound)?;
    Ok(updated(array, &place, new))
}

#[cycle(direct)]
fn bind_in(
    alloc: Global,
    functions: &[Function],
    levels: u32,
    expr: &CoreExpr,
    shape: &Shape,
    body: &CoreExpr,
    bound: &mut Vec<Value>,
) -> Result<Option<Value>, AllocError>
    ensures value { IfOk result (λ v. v ≡ core_step (CoreExpr-F.Bind (core_value expr.now) shape.now (core_value body.now)) (calls_of functions.now) bound.old.items) }
    ensures stays { OnOk result (bound.new.items ≡ bound.old.items) }
{
    match value_in(alloc, functions, levels, expr, bound)? {
        Some(value) => body_in(alloc, functions, levels, shape, value, body, bound),
        None => Ok(None),
    }
}

/// The value of an expression over the parts of a value too.
#[cycle(direct)]
fn body_in(
    alloc: Global,
    functions: &[Function],
    levels: u32,
    shape: &Shape,
    value: Value,
    body: &CoreExpr,
    bound: &mut Vec<Value>,
) -> Result<Option<Value>, AllocError>
    ensures value { IfOk result (λ v. v ≡ and_then (taken_apart shape.now value bound.old.items) (core_value body.now (calls_of functions.now))) }
    ensures stays { OnOk result (bound.new.items ≡ bound.old.items) }
{
    let count = bound.len();
    let fits = take_whole(alloc, shape, value, bound)?;
    let found = if fits {
        value_in(alloc, functions, levels, body, bound)?
    } else {
        None
    };
    bound.truncate(count);
    Ok(found)
}

#[cycle(direct)]
fn choose_in(
    alloc: Global,
    functions: &[Function],
    levels: u32,
    test: &CoreExpr,
    yes: &CoreExpr,
    no: &CoreExpr,
    bound: &mut Vec<Value>,
) -> Result<Option<Value>, AllocError>
    ensures value { IfOk result (λ v. v ≡ core_step (CoreExpr-F.Choose (core_value test.now) (core_value yes.now) (core_value no.now)) (calls_of functions.now) bound.old.items) }
    ensures stays { OnOk result (bound.new.items ≡ bound.old.items) }
{
    let word = word_in(alloc, functions, levels, test, bound)?;
    match is_one_given(word) {
        Some(true) => value_in(alloc, functions, levels, yes, bound),
        Some(false) => value_in(alloc, functions, levels, no, bound),
        None => Ok(None),
    }
}

#[cycle(direct)]
fn select_in(
    alloc: Global,
    functions: &[Function],
    levels: u32,
    expr: &CoreExpr,
    arms: &[Arm],
    bound: &mut Vec<Value>,
) -> Result<Option<Value>, AllocError>
    ensures value { IfOk result (λ v. v ≡ core_step (CoreExpr-F.Select (core_value expr.now) (map arm_den arms.now)) (calls_of functions.now) bound.old.items) }
    ensures stays { OnOk result (bound.new.items ≡ bound.old.items) }
{
    match value_in(alloc, functions, levels, expr, bound)? {
        Some(value) => arms_in(alloc, functions, levels, arms, &value, bound),
        None => Ok(None),
    }
}

/// The value of the first arm that fits a value, else that of the last one.
#[cycle(direct)]
fn arms_in(
    alloc: Global,
    functions: &[Function],
    levels: u32,
    arms: &[Arm],
    value: &Value,
    bound: &mut Vec<Value>,
) -> Result<Option<Value>, AllocError>
    ensures value { IfOk result (λ v. v ≡ select (map arm_den arms.now) value.now (calls_of functions.now) bound.old.items) }
    ensures stays { OnOk result (bound.new.items ≡ bound.old.items) }
{
    let count = bound.len();
    'arms: for i in 0..arms.len() {
        let fits = take_first(alloc, arms[i].shapes.as_slice(), value, bound)?;
        if fits || i + 1 == arms.len() {
            let found = value_in(alloc, functions, levels, &arms[i].value, bound)?;
            bound.truncate(count);
            return Ok(found);
        }
    }
    Ok(None)
}

#[cycle(direct)]
fn loop_in(
    alloc: Global,
    functions: &[Function],
    levels: u32,
    count: u64,
    from: Bits,
    index_shape: &Shape,
    shape: &Shape,
    body: &CoreExpr,
    start: &CoreExpr,
    bound: &mut Vec<Value>,
) -> Result<Option<Value>, AllocError>
    ensures value { IfOk result (λ v. v ≡ core_step (CoreExpr-F.Loop count from index_shape.now shape.now (core_value body.now) (core_value start.now)) (calls_of functions.now) bound.old.items) }
    ensures stays { OnOk result (bound.new.items ≡ bound.old.items) }
{
    match value_in(alloc, functions, levels, start, bound)? {
        Some(value) => turns_in(
            alloc,
            functions,
            levels,
            count,
            from,
            index_shape,
            shape,
            body,
            value,
            bound,
        ),
        None => Ok(None),
    }
}

/// What so many turns make of a value.
#[cycle(direct)]
fn turns_in(
    alloc: Global,
    functions: &[Function],
    levels: u32,
    count: u64,
    from: Bits,
    index_shape: &Shape,
    shape: &Shape,
    body: &CoreExpr,
    start: Value,
    bound: &mut Vec<Value>,
) -> Result<Option<Value>, AllocError>
    ensures value { IfOk result (λ v. v ≡ turns (turn_by index_shape.now shape.now (core_value body.now) (calls_of functions.now) bound.old.items) count from start) }
    ensures stays { OnOk result (bound.new.items ≡ bound.old.items) }
{
    let mut value = start;
    let mut index = from;
    'turns: for turn in 0..count {
        match turn_in(
            alloc,
            functions,
            levels,
            index,
            index_shape,
            shape,
            body,
            value,
            bound,
        )? {
            Some(next) => value = next,
            None => return Ok(None),
        }
        index = next_index(index);
    }
    Ok(Some(value))
}

/// What one turn makes of a value.
#[cycle(direct)]
fn turn_in(
    alloc: Global,
    functions: &[Function],
    levels: u32,
    index: Bits,
    index_shape: &Shape,
    shape: &Shape,
    body: &CoreExpr,
    value: Value,
    bound: &mut Vec<Value>,
) -> Result<Option<Value>, AllocError>
    ensures value { IfOk result (λ v. v ≡ turn_by index_shape.now shape.now (core_value body.now) (calls_of functions.now) bound.old.items (of_bits index) value) }
    ensures stays { OnOk result (bound.new.items ≡ bound.old.items) }
{
    let count = bound.len();
    let fits = take_whole(alloc, index_shape, Value::Bits(index), bound)?;
    let found = if fits {
        body_in(alloc, functions, levels, shape, value, body, bound)?
    } else {
        None
    };
    bound.truncate(count);
    Ok(found)
}

#[cycle(direct)]
fn call_in(
    alloc: Global,
    functions: &[Function],
    levels: u32,
    number: u64,
    operands: &[CoreExpr],
    bound: &mut Vec<Value>,
) -> Result<Option<Value>, AllocError>
    ensures value { IfOk result (λ v. v ≡ core_step (CoreExpr-F.Call number (map core_value operands.now)) (calls_of functions.now) bound.old.items) }
    ensures stays { OnOk result (bound.new.items ≡ bound.old.items) }
{
    match each_in(alloc, functions, levels, operands, bound)? {
        Some(values) => function_in(alloc, functions, levels, number, values),
        None => Ok(None),
    }
}

/// What the function of a number gives for its operands.
#[cycle(direct)]
fn function_in(
    alloc: Global,
    functions: &[Function],
    levels: u32,
    number: u64,
    operands: Vec<Value>,
) -> Result<Option<Value>, AllocError>
    ensures { IfOk result (λ v. v ≡ calls_of functions.now number operands.items) }
{
    if number >= functions.len() as u64 {
        return Ok(None);
    }
    let function = &functions[number as usize];
    if operands.len() as u64 != function.arity {
        return Ok(None);
    }
    let mut bound = operands;
    value_in(
        alloc,
        &functions[..number as usize],
        levels,
        &function.body,
        &mut bound,
    )
}

/// The value of an expression that is there already: a literal, or what is bound.
fn value_there<'v>(expr: &'v CoreExpr, bound: &'v [Value]) -> Option<&'v Value>
    ensures { (calls : Functions) → IfSome result (λ v. layer (out-CoreExpr expr.now) calls bound.now ≡ Some v.now) }
{
    match expr {
        CoreExpr::Literal(value) => Some(value),
        CoreExpr::Slot(number) => match bound.get(*number as usize) {
            Some(value) => Some(value),
            None => None,
        },
        _ => None,
    }
}

/// The part of a tuple of this number.
fn element_of(alloc: Global, value: &Value, number: u64) -> Result<Option<Value>, AllocError>
    ensures { IfOk result (λ v. v ≡ and_then (tuple_values_step (out-Value value.now)) (λ vs. slice_get vs number)) }
{
    match value {
        Value::Tuple(parts) => value_at(alloc, parts.as_slice(), number),
        _ => Ok(None),
    }
}

/// The element of an array at the index that a word is, the last one where the index is past the end.
fn index_of(alloc: Global, array: &Value, place: Option<Bits>) -> Result<Option<Value>, AllocError>
    ensures { IfOk result (λ v. v ≡ with_both (array_values_step (out-Value array.now)) place read_at) }
{
    match (array, place) {
        (Value::Array(elements), Some(word)) => {
            value_at(alloc, elements.as_slice(), place_of(word, elements.len()))
        }
        _ => Ok(None),
    }
}

/// The same where there may be no array.
fn indexed_given(
    alloc: Global,
    array: &Option<Value>,
    place: Option<Bits>,
) -> Result<Option<Value>, AllocError>
    ensures { IfOk result (λ v. v ≡ with_both (and_then array.now (λ v. array_values_step (out-Value v))) place read_at) }
{
    match array {
        Some(array) => index_of(alloc, array, place),
        None => Ok(None),
    }
}

/// The index behind another one, which is 0 behind the last one.
fn next_index(index: Bits) -> Bits
    ensures { result ≡ add_words index (word index.width 1) }
{
    add(index, zext(Bits::new(1, 1), index.width()))
}
