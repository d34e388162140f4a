//! One function for each kind of expression.

ghost use Rattle.std.specs.Prelude.{◌≡◌, ◌≤◌, ◌∷◌, None, Some, take, length, slice_get, IfOk, MatchOption};
ghost use Rattle.xb_bits.specs.Word.{word};
ghost use Rattle.xb_bits.specs.Operations.{add as add_words};
ghost use Rattle.dslx_core.specs.declared.expr.CoreExpr as core;
ghost use Rattle.ir_lower_nodes.specs.Exprs.Lowered.{slot_or_state, Lowers, EachLowers, ArmsLower, ArmLowers, TurnLowers};

use crate::patterns::{bind, bind_arm, fits_any};
use crate::words::{binary, cast, literal, unary};
use dslx_core::{Arm, CoreBinary, CoreExpr, CoreUnary, Function, Shape, Sign};
use ir_rebuild::putting::Nodes;
use ir_tree::Operand;
use std::alloc::{AllocError, Global};
use xb_bits::{Bits, add, zext};

/// Puts the nodes of an expression, and answers the operand that has its value. Its parts and the functions that it calls are put
/// in place, at most so deep one in another: what is deeper counts as want of memory.
///
/// It takes time and memory as the expression is large, with its calls and turns put in place, and recurses as deep.
#[cycle(lower)]
pub fn lower(
    alloc: Global,
    functions: &[Function],
    depth: u64,
    nodes: &mut Nodes,
    slots: &mut Vec<Operand>,
    expr: &CoreExpr,
) -> Result<Operand, AllocError>
    ensures kept { IfOk result (λ o. slots.new.items ≡ slots.old.items) }
    ensures value { IfOk result (λ o. Lowers functions.now expr.now slots.old.items nodes.old nodes.new o) }
{
    if depth == 0 {
        return Err(AllocError);
    }
    let depth = depth - 1;
    match expr {
        CoreExpr::Literal(value) => literal(alloc, nodes, value),
        CoreExpr::Slot(number) => Ok(slot(slots.as_slice(), *number)),
        CoreExpr::Tuple(parts) => {
            lower_tuple(alloc, functions, depth, nodes, slots, parts.as_slice())
        }
        CoreExpr::Array(elements) => lower_array(
            alloc,
            functions,
            depth,
            nodes,
            slots,
            elements.as_slice(),
        ),
        CoreExpr::Unary(op, operand) => {
            lower_unary(alloc, functions, depth, nodes, slots, *op, operand.get())
        }
        CoreExpr::Binary(op, left, right) => lower_binary(
            alloc,
            functions,
            depth,
            nodes,
            slots,
            *op,
            left.get(),
            right.get(),
        ),
        CoreExpr::Cast(sign, width, operand) => lower_cast(
            alloc,
            functions,
            depth,
            nodes,
            slots,
            *sign,
            *width,
            operand.get(),
        ),
        CoreExpr::Slice(operand, from, width) => lower_slice(
            alloc,
            functions,
            depth,
            nodes,
            slots,
            operand.get(),
            *from,
            *width,
        ),
        CoreExpr::Part(operand, start, width) => lower_part(
            alloc,
            functions,
            depth,
            nodes,
            slots,
            operand.get(),
            start.get(),
            *width,
        ),
        CoreExpr::Element(operand, number) => lower_element(
            alloc,
            functions,
            depth,
            nodes,
            slots,
            operand.get(),
            *number,
        ),
        CoreExpr::Index(array, index) => lower_index(
            alloc,
            functions,
            depth,
            nodes,
            slots,
            array.get(),
            index.get(),
        ),
        CoreExpr::Update(array, index, element) => lower_update(
            alloc,
            functions,
            depth,
            nodes,
            slots,
            array.get(),
            index.get(),
            element.get(),
        ),
        CoreExpr::Bind(value, shape, body) => lower_bind(
            alloc,
            functions,
            depth,
            nodes,
            slots,
            value.get(),
            shape,
            body.get(),
        ),
        CoreExpr::Choose(test, yes, no) => lower_choose(
            alloc,
            functions,
            depth,
            nodes,
            slots,
            test.get(),
            yes.get(),
            no.get(),
        ),
        CoreExpr::Select(value, arms) => lower_select(
            alloc,
            functions,
            depth,
            nodes,
            slots,
            value.get(),
            arms.as_slice(),
        ),
        CoreExpr::Loop(turns, from, index, shape, body, start) => lower_loop(
            alloc,
            functions,
            depth,
            nodes,
            slots,
            *turns,
            *from,
            index,
            shape,
            body.get(),
            start.get(),
        ),
        CoreExpr::Call(number, operands) => lower_call(
            alloc,
            functions,
            depth,
            nodes,
            slots,
            *number,
            operands.as_slice(),
        ),
    }
}

/// The operand that is bound as this number. One that isn't there is taken for the state.
fn slot(slots: &[Operand], number: u64) -> Operand
    ensures { result ≡ slot_or_state slots.now number }
{
    match slots.get(number as usize) {
        Some(operand) => *operand,
        None => Operand::State,
    }
}

/// The operand of each expression.
#[cycle(lower)]
fn lower_each(
    alloc: Global,
    functions: &[Function],
    depth: u64,
    nodes: &mut Nodes,
    slots: &mut Vec<Operand>,
    exprs: &[CoreExpr],
) -> Result<Vec<Operand>, AllocError>
    ensures kept { IfOk result (λ os. slots.new.items ≡ slots.old.items) }
    ensures values { IfOk result (λ os. EachLowers functions.now exprs.now slots.old.items nodes.old nodes.new os.items) }
{
    let mut operands = Vec::new(alloc);
    'exprs: for expr in exprs {
        operands.push(lower(alloc, functions, depth, nodes, slots, expr)?)?;
    }
    Ok(operands)
}

#[cycle(lower)]
fn lower_tuple(
    alloc: Global,
    functions: &[Function],
    depth: u64,
    nodes: &mut Nodes,
    slots: &mut Vec<Operand>,
    parts: &[CoreExpr],
) -> Result<Operand, AllocError>
    ensures kept { IfOk result (λ o. slots.new.items ≡ slots.old.items) }
    ensures value { IfOk result (λ o. Lowers functions.now (core.Tuple parts.now) slots.old.items nodes.old nodes.new o) }
{
    let operands = lower_each(alloc, functions, depth, nodes, slots, parts)?;
    nodes.tuple(operands.as_slice())
}

#[cycle(lower)]
fn lower_array(
    alloc: Global,
    functions: &[Function],
    depth: u64,
    nodes: &mut Nodes,
    slots: &mut Vec<Operand>,
    elements: &[CoreExpr],
) -> Result<Operand, AllocError>
    ensures kept { IfOk result (λ o. slots.new.items ≡ slots.old.items) }
    ensures value { IfOk result (λ o. Lowers functions.now (core.Array elements.now) slots.old.items nodes.old nodes.new o) }
{
    let operands = lower_each(alloc, functions, depth, nodes, slots, elements)?;
    nodes.array(operands.as_slice())
}

#[cycle(lower)]
fn lower_unary(
    alloc: Global,
    functions: &[Function],
    depth: u64,
    nodes: &mut Nodes,
    slots: &mut Vec<Operand>,
    op: CoreUnary,
    operand: &CoreExpr,
) -> Result<Operand, AllocError>
    ensures kept { IfOk result (λ o. slots.new.items ≡ slots.old.items) }
    ensures value { IfOk result (λ o. Lowers functions.now (core.Unary op operand.now) slots.old.items nodes.old nodes.new o) }
{
    let a = lower(alloc, functions, depth, nodes, slots, operand)?;
    unary(nodes, op, a)
}

#[cycle(lower)]
fn lower_binary(
    alloc: Global,
    functions: &[Function],
    depth: u64,
    nodes: &mut Nodes,
    slots: &mut Vec<Operand>,
    op: CoreBinary,
    left: &CoreExpr,
    right: &CoreExpr,
) -> Result<Operand, AllocError>
    ensures kept { IfOk result (λ o. slots.new.items ≡ slots.old.items) }
    ensures value { IfOk result (λ o. Lowers functions.now (core.Binary op left.now right.now) slots.old.items nodes.old nodes.new o) }
{
    let a = lower(alloc, functions, depth, nodes, slots, left)?;
    let b = lower(alloc, functions, depth, nodes, slots, right)?;
    binary(nodes, op, a, b)
}

#[cycle(lower)]
fn lower_cast(
    alloc: Global,
    functions: &[Function],
    depth: u64,
    nodes: &mut Nodes,
    slots: &mut Vec<Operand>,
    sign: Sign,
    width: u8,
    operand: &CoreExpr,
) -> Result<Operand, AllocError>
    ensures kept { IfOk result (λ o. slots.new.items ≡ slots.old.items) }
    ensures value { IfOk result (λ o. Lowers functions.now (core.Cast sign width operand.now) slots.old.items nodes.old nodes.new o) }
{
    let a = lower(alloc, functions, depth, nodes, slots, operand)?;
    cast(nodes, sign, width, a)
}

#[cycle(lower)]
fn lower_slice(
    alloc: Global,
    functions: &[Function],
    depth: u64,
    nodes: &mut Nodes,
    slots: &mut Vec<Operand>,
    operand: &CoreExpr,
    from: u8,
    width: u8,
) -> Result<Operand, AllocError>
    ensures kept { IfOk result (λ o. slots.new.items ≡ slots.old.items) }
    ensures value { IfOk result (λ o. Lowers functions.now (core.Slice operand.now from width) slots.old.items nodes.old nodes.new o) }
{
    let a = lower(alloc, functions, depth, nodes, slots, operand)?;
    nodes.slice(a, u128::from(from), u128::from(width))
}

#[cycle(lower)]
fn lower_part(
    alloc: Global,
    functions: &[Function],
    depth: u64,
    nodes: &mut Nodes,
    slots: &mut Vec<Operand>,
    operand: &CoreExpr,
    start: &CoreExpr,
    width: u8,
) -> Result<Operand, AllocError>
    ensures kept { IfOk result (λ o. slots.new.items ≡ slots.old.items) }
    ensures value { IfOk result (λ o. Lowers functions.now (core.Part operand.now start.now width) slots.old.items nodes.old nodes.new o) }
{
    let a = lower(alloc, functions, depth, nodes, slots, operand)?;
    let b = lower(alloc, functions, depth, nodes, slots, start)?;
    nodes.part(a, b, u128::from(width))
}

#[cycle(lower)]
fn lower_element(
    alloc: Global,
    functions: &[Function],
    depth: u64,
    nodes: &mut Nodes,
    slots: &mut Vec<Operand>,
    operand: &CoreExpr,
    number: u64,
) -> Result<Operand, AllocError>
    ensures kept { IfOk result (λ o. slots.new.items ≡ slots.old.items) }
    ensures value { IfOk result (λ o. Lowers functions.now (core.Element operand.now number) slots.old.items nodes.old nodes.new o) }
{
    let a = lower(alloc, functions, depth, nodes, slots, operand)?;
    nodes.element(a, number)
}

#[cycle(lower)]
fn lower_index(
    alloc: Global,
    functions: &[Function],
    depth: u64,
    nodes: &mut Nodes,
    slots: &mut Vec<Operand>,
    array: &CoreExpr,
    index: &CoreExpr,
) -> Result<Operand, AllocError>
    ensures kept { IfOk result (λ o. slots.new.items ≡ slots.old.items) }
    ensures value { IfOk result (λ o. Lowers functions.now (core.Index array.now index.now) slots.old.items nodes.old nodes.new o) }
{
    let a = lower(alloc, functions, depth, nodes, slots, array)?;
    let b = lower(alloc, functions, depth, nodes, slots, index)?;
    nodes.index(a, b)
}

#[cycle(lower)]
fn lower_update(
    alloc: Global,
    functions: &[Function],
    depth: u64,
    nodes: &mut Nodes,
    slots: &mut Vec<Operand>,
    array: &CoreExpr,
    index: &CoreExpr,
    element: &CoreExpr,
) -> Result<Operand, AllocError>
    ensures kept { IfOk result (λ o. slots.new.items ≡ slots.old.items) }
    ensures value { IfOk result (λ o. Lowers functions.now (core.Update array.now index.now element.now) slots.old.items nodes.old nodes.new o) }
{
    let a = lower(alloc, functions, depth, nodes, slots, array)?;
    let b = lower(alloc, functions, depth, nodes, slots, index)?;
    let c = lower(alloc, functions, depth, nodes, slots, element)?;
    nodes.update(a, b, c)
}

#[cycle(lower)]
fn lower_choose(
    alloc: Global,
    functions: &[Function],
    depth: u64,
    nodes: &mut Nodes,
    slots: &mut Vec<Operand>,
    test: &CoreExpr,
    yes: &CoreExpr,
    no: &CoreExpr,
) -> Result<Operand, AllocError>
    ensures kept { IfOk result (λ o. slots.new.items ≡ slots.old.items) }
    ensures value { IfOk result (λ o. Lowers functions.now (core.Choose test.now yes.now no.now) slots.old.items nodes.old nodes.new o) }
{
    let bit = lower(alloc, functions, depth, nodes, slots, test)?;
    let one = lower(alloc, functions, depth, nodes, slots, yes)?;
    let zero = lower(alloc, functions, depth, nodes, slots, no)?;
    nodes.choose(bit, one, zero)
}

/// An expression over all that is bound, of which only so many stay bound.
#[cycle(lower)]
fn lower_behind(
    alloc: Global,
    functions: &[Function],
    depth: u64,
    nodes: &mut Nodes,
    slots: &mut Vec<Operand>,
    count: usize,
    body: &CoreExpr,
) -> Result<Operand, AllocError>
    ensures kept { IfOk result (λ o. slots.new.items ≡ take count slots.old.items) }
    ensures value { IfOk result (λ o. Lowers functions.now body.now slots.old.items nodes.old nodes.new o) }
{
    let value = lower(alloc, functions, depth, nodes, slots, body)?;
    slots.truncate(count);
    Ok(value)
}

#[cycle(lower)]
fn lower_bind(
    alloc: Global,
    functions: &[Function],
    depth: u64,
    nodes: &mut Nodes,
    slots: &mut Vec<Operand>,
    value: &CoreExpr,
    shape: &Shape,
    body: &CoreExpr,
) -> Result<Operand, AllocError>
    ensures kept { IfOk result (λ o. slots.new.items ≡ slots.old.items) }
    ensures value { IfOk result (λ o. Lowers functions.now (core.Bind value.now shape.now body.now) slots.old.items nodes.old nodes.new o) }
{
    let a = lower(alloc, functions, depth, nodes, slots, value)?;
    let count = slots.len();
    bind(nodes, shape, a, slots)?;
    lower_behind(alloc, functions, depth, nodes, slots, count, body)
}

#[cycle(lower)]
fn lower_select(
    alloc: Global,
    functions: &[Function],
    depth: u64,
    nodes: &mut Nodes,
    slots: &mut Vec<Operand>,
    value: &CoreExpr,
    arms: &[Arm],
) -> Result<Operand, AllocError>
    ensures kept { IfOk result (λ o. slots.new.items ≡ slots.old.items) }
    ensures value { IfOk result (λ o. Lowers functions.now (core.Select value.now arms.now) slots.old.items nodes.old nodes.new o) }
{
    let a = lower(alloc, functions, depth, nodes, slots, value)?;
    lower_arms(alloc, functions, depth, nodes, slots, arms, a)
}

/// The value of the first arm that fits the value of an operand, else of the last one.
#[cycle(lower)]
fn lower_arms(
    alloc: Global,
    functions: &[Function],
    depth: u64,
    nodes: &mut Nodes,
    slots: &mut Vec<Operand>,
    arms: &[Arm],
    a: Operand,
) -> Result<Operand, AllocError>
    ensures kept { IfOk result (λ o. slots.new.items ≡ slots.old.items) }
    ensures value { IfOk result (λ o. ArmsLower functions.now arms.now a slots.old.items nodes.old nodes.new o) }
{
    match arms {
        [] => Ok(a),
        [last] => lower_arm(alloc, functions, depth, nodes, slots, last, a),
        [first, rest @ ..] => lower_choice(alloc, functions, depth, nodes, slots, first, rest, a),
    }
}

/// The value of an arm where it fits, else that of the arms behind it.
#[cycle(lower)]
fn lower_choice(
    alloc: Global,
    functions: &[Function],
    depth: u64,
    nodes: &mut Nodes,
    slots: &mut Vec<Operand>,
    first: &Arm,
    rest: &[Arm],
    a: Operand,
) -> Result<Operand, AllocError>
    requires { 1 ≤ length rest.now }
    ensures kept { IfOk result (λ o. slots.new.items ≡ slots.old.items) }
    ensures value { IfOk result (λ o. ArmsLower functions.now (first.now ∷ rest.now) a slots.old.items nodes.old nodes.new o) }
{
    if depth == 0 {
        return Err(AllocError);
    }
    let fit = fits_any(nodes, first.shapes.as_slice(), a)?;
    let one = lower_arm(alloc, functions, depth, nodes, slots, first, a)?;
    let others = lower_arms(alloc, functions, depth - 1, nodes, slots, rest, a)?;
    nodes.choose(fit, one, others)
}

/// The value of an arm, over what it binds.
#[cycle(lower)]
fn lower_arm(
    alloc: Global,
    functions: &[Function],
    depth: u64,
    nodes: &mut Nodes,
    slots: &mut Vec<Operand>,
    arm: &Arm,
    a: Operand,
) -> Result<Operand, AllocError>
    ensures kept { IfOk result (λ o. slots.new.items ≡ slots.old.items) }
    ensures value { IfOk result (λ o. ArmLowers functions.now arm.now a slots.old.items nodes.old nodes.new o) }
{
    let count = slots.len();
    bind_arm(nodes, arm.shapes.as_slice(), a, slots)?;
    lower_behind(alloc, functions, depth, nodes, slots, count, &arm.value)
}

#[cycle(lower)]
fn lower_loop(
    alloc: Global,
    functions: &[Function],
    depth: u64,
    nodes: &mut Nodes,
    slots: &mut Vec<Operand>,
    turns: u64,
    from: Bits,
    index: &Shape,
    shape: &Shape,
    body: &CoreExpr,
    start: &CoreExpr,
) -> Result<Operand, AllocError>
    ensures kept { IfOk result (λ o. slots.new.items ≡ slots.old.items) }
    ensures value { IfOk result (λ o. Lowers functions.now (core.Loop turns from index.now shape.now body.now start.now) slots.old.items nodes.old nodes.new o) }
{
    let mut value = lower(alloc, functions, depth, nodes, slots, start)?;
    let mut place = from;
    'turns: for _ in 0..turns {
        value = lower_turn(
            alloc, functions, depth, nodes, slots, place, index, shape, body, value,
        )?;
        place = next_index(place);
    }
    Ok(value)
}

/// The index behind another one, which is 0 behind the last one.
fn next_index(index: Bits) -> Bits
    ensures { result ≡ add_words index (word index.width 1) }
{
    add(index, zext(Bits::new(1, 1), index.width()))
}

/// A turn of a loop, at an index and over the value that was accumulated.
#[cycle(lower)]
fn lower_turn(
    alloc: Global,
    functions: &[Function],
    depth: u64,
    nodes: &mut Nodes,
    slots: &mut Vec<Operand>,
    place: Bits,
    index: &Shape,
    shape: &Shape,
    body: &CoreExpr,
    value: Operand,
) -> Result<Operand, AllocError>
    ensures kept { IfOk result (λ o. slots.new.items ≡ slots.old.items) }
    ensures value { IfOk result (λ o. TurnLowers functions.now index.now shape.now body.now place value slots.old.items nodes.old nodes.new o) }
{
    let count = slots.len();
    let number = nodes.number(u128::from(place.width()), place.value())?;
    bind(nodes, index, number, slots)?;
    bind(nodes, shape, value, slots)?;
    lower_behind(alloc, functions, depth, nodes, slots, count, body)
}

/// The body of a function, over its operands.
#[cycle(lower)]
fn lower_call(
    alloc: Global,
    functions: &[Function],
    depth: u64,
    nodes: &mut Nodes,
    slots: &mut Vec<Operand>,
    number: u64,
    operands: &[CoreExpr],
) -> Result<Operand, AllocError>
    ensures kept { IfOk result (λ o. slots.new.items ≡ slots.old.items) }
    ensures value { IfOk result (λ o. Lowers functions.now (core.Call number operands.now) slots.old.items nodes.old nodes.new o) }
{
    let mut inner = lower_each(alloc, functions, depth, nodes, slots, operands)?;
    match function_at(functions, number) {
        Some(function) => lower(alloc, functions, depth, nodes, &mut inner, &function.body),
        None => Ok(Operand::State),
    }
}

/// The function of a number.
fn function_at(functions: &[Function], number: u64) -> Option<&Function>
    ensures { MatchOption result (slice_get functions.now number ≡ None) (λ f. slice_get functions.now number ≡ Some f.now) }
{
    let place = number as usize;
    if place < functions.len() {
        Some(&functions[place])
    } else {
        None
    }
}
