//! One function for each kind of expression.

ghost use Rattle.std.specs.Prelude.{◌≡◌, ◌≤◌, ◌∷◌, ◌||◌, [], ℕ, List, length, map, take, true, IfOk, MatchBool};
ghost use Rattle.xb_value.specs.declared.ty.Ty.{Ty as AnyTy};
ghost use Rattle.dslx_meaning.specs.Lists.{and_then};
ghost use Rattle.dslx_core.specs.declared.expr.Arm.{out-Arm};
ghost use Rattle.dslx_core.specs.declared.expr.CoreExpr as core;
ghost use Rattle.dslx_core.specs.declared.expr.Sign.{Sign};
ghost use Rattle.dslx_core.specs.Types.Typing.{FunctionTypes, all_fit, arm_binds, binds_types, is_sound_word, shapes_of};
ghost use Rattle.ir_lower_nodes.specs.Exprs.NodeTypes.{arm_node_type, if_node, node_type};
ghost use Rattle.ir_lower.specs.Types.Signatures.{call_types};
ghost use Rattle.ir_lower.specs.Types.Typed.{ArmsTyped, EachTyped};

use crate::types::aggregates::{
    alike, array, choice, copied, element, index, tuple, type_at, update,
};
use crate::types::binding::{bind_all, bind_arm, is_certain};
use crate::types::fitting::all_fit;
use crate::types::limits::within;
use crate::types::literals::literal;
use crate::types::signature::{Signature, result_of};
use crate::types::stop::{Call, Stop};
use crate::types::words::{binary, cast, part, slice, unary};
use dslx_core::{Arm, CoreBinary, CoreExpr, CoreUnary, Shape};
use std::alloc::{AllocError, Global};
use xb_bits::Bits;
use xb_value::{Ty, Value};

/// The type of an expression over values of the types that are bound, where each part of it has one that a node may have. Its parts are
/// at most so deep one in another: what is deeper counts as want of memory.
///
/// It takes time and memory as the expression is large, and recurses as deep.
#[cycle(types)]
pub fn type_of(
    alloc: Global,
    signatures: &[Signature],
    depth: u64,
    bound: &mut Vec<Ty>,
    expr: &CoreExpr,
) -> Result<Ty, Stop>
    ensures kept { IfOk result (λ t. bound.new.items ≡ bound.old.items) }
    ensures ty { IfOk result (λ t. node_type expr.now (call_types signatures.now) bound.old.items ≡ Some t) }
{
    if depth == 0 {
        return Err(Stop::OutOfMemory);
    }
    let depth = depth - 1;
    match expr {
        CoreExpr::Literal(value) => type_literal(alloc, value),
        CoreExpr::Slot(number) => type_slot(alloc, bound.as_slice(), *number),
        CoreExpr::Tuple(parts) => type_tuple(alloc, signatures, depth, bound, parts.as_slice()),
        CoreExpr::Array(elements) => {
            type_array(alloc, signatures, depth, bound, elements.as_slice())
        }
        CoreExpr::Unary(op, operand) => {
            type_unary(alloc, signatures, depth, bound, *op, operand.get())
        }
        CoreExpr::Binary(op, left, right) => type_binary(
            alloc,
            signatures,
            depth,
            bound,
            *op,
            left.get(),
            right.get(),
        ),
        CoreExpr::Cast(_, width, operand) => {
            type_cast(alloc, signatures, depth, bound, *width, operand.get())
        }
        CoreExpr::Slice(operand, from, width) => type_slice(
            alloc,
            signatures,
            depth,
            bound,
            operand.get(),
            *from,
            *width,
        ),
        CoreExpr::Part(operand, start, width) => type_part(
            alloc,
            signatures,
            depth,
            bound,
            operand.get(),
            start.get(),
            *width,
        ),
        CoreExpr::Element(operand, number) => type_element(
            alloc,
            signatures,
            depth,
            bound,
            operand.get(),
            *number,
        ),
        CoreExpr::Index(array, index) => type_index(
            alloc,
            signatures,
            depth,
            bound,
            array.get(),
            index.get(),
        ),
        CoreExpr::Update(array, index, element) => type_update(
            alloc,
            signatures,
            depth,
            bound,
            array.get(),
            index.get(),
            element.get(),
        ),
        CoreExpr::Bind(value, shape, body) => type_bind(
            alloc,
            signatures,
            depth,
            bound,
            value.get(),
            shape,
            body.get(),
        ),
        CoreExpr::Choose(test, yes, no) => type_choose(
            alloc,
            signatures,
            depth,
            bound,
            test.get(),
            yes.get(),
            no.get(),
        ),
        CoreExpr::Select(value, arms) => type_select(
            alloc,
            signatures,
            depth,
            bound,
            value.get(),
            arms.as_slice(),
        ),
        CoreExpr::Loop(_, from, index, shape, body, start) => type_loop(
            alloc,
            signatures,
            depth,
            bound,
            *from,
            index,
            shape,
            body.get(),
            start.get(),
        ),
        CoreExpr::Call(number, operands) => type_call(
            alloc,
            signatures,
            depth,
            bound,
            *number,
            operands.as_slice(),
        ),
    }
}

/// The type of a value that is written out.
fn type_literal(alloc: Global, value: &Value) -> Result<Ty, Stop>
    ensures { IfOk result (λ t. (calls : FunctionTypes) (types : List AnyTy) → node_type (core.Literal value.now) calls types ≡ Some t) }
{
    literal(alloc, value)
}

/// The type of what is bound as this number.
fn type_slot(alloc: Global, bound: &[Ty], number: u64) -> Result<Ty, Stop>
    ensures { IfOk result (λ t. (calls : FunctionTypes) → node_type (core.Slot number) calls bound.now ≡ Some t) }
{
    let ty = type_at(alloc, bound, number)?;
    within(alloc, ty)
}

/// The type of each expression.
#[cycle(types)]
fn type_each(
    alloc: Global,
    signatures: &[Signature],
    depth: u64,
    bound: &mut Vec<Ty>,
    exprs: &[CoreExpr],
) -> Result<Vec<Ty>, Stop>
    ensures kept { IfOk result (λ ts. bound.new.items ≡ bound.old.items) }
    ensures types { IfOk result (λ ts. EachTyped signatures.now bound.old.items exprs.now ts.items) }
{
    let mut types = Vec::new(alloc);
    'exprs: for expr in exprs {
        types.push(type_of(alloc, signatures, depth, bound, expr)?)?;
    }
    Ok(types)
}

#[cycle(types)]
fn type_tuple(
    alloc: Global,
    signatures: &[Signature],
    depth: u64,
    bound: &mut Vec<Ty>,
    parts: &[CoreExpr],
) -> Result<Ty, Stop>
    ensures kept { IfOk result (λ t. bound.new.items ≡ bound.old.items) }
    ensures ty { IfOk result (λ t. node_type (core.Tuple parts.now) (call_types signatures.now) bound.old.items ≡ Some t) }
{
    let types = type_each(alloc, signatures, depth, bound, parts)?;
    tuple(alloc, types)
}

#[cycle(types)]
fn type_array(
    alloc: Global,
    signatures: &[Signature],
    depth: u64,
    bound: &mut Vec<Ty>,
    elements: &[CoreExpr],
) -> Result<Ty, Stop>
    ensures kept { IfOk result (λ t. bound.new.items ≡ bound.old.items) }
    ensures ty { IfOk result (λ t. node_type (core.Array elements.now) (call_types signatures.now) bound.old.items ≡ Some t) }
{
    let types = type_each(alloc, signatures, depth, bound, elements)?;
    array(alloc, types.as_slice())
}

#[cycle(types)]
fn type_unary(
    alloc: Global,
    signatures: &[Signature],
    depth: u64,
    bound: &mut Vec<Ty>,
    op: CoreUnary,
    operand: &CoreExpr,
) -> Result<Ty, Stop>
    ensures kept { IfOk result (λ t. bound.new.items ≡ bound.old.items) }
    ensures ty { IfOk result (λ t. node_type (core.Unary op operand.now) (call_types signatures.now) bound.old.items ≡ Some t) }
{
    let a = type_of(alloc, signatures, depth, bound, operand)?;
    unary(alloc, op, &a)
}

#[cycle(types)]
fn type_binary(
    alloc: Global,
    signatures: &[Signature],
    depth: u64,
    bound: &mut Vec<Ty>,
    op: CoreBinary,
    left: &CoreExpr,
    right: &CoreExpr,
) -> Result<Ty, Stop>
    ensures kept { IfOk result (λ t. bound.new.items ≡ bound.old.items) }
    ensures ty { IfOk result (λ t. node_type (core.Binary op left.now right.now) (call_types signatures.now) bound.old.items ≡ Some t) }
{
    let a = type_of(alloc, signatures, depth, bound, left)?;
    let b = type_of(alloc, signatures, depth, bound, right)?;
    binary(alloc, op, &a, &b)
}

#[cycle(types)]
fn type_cast(
    alloc: Global,
    signatures: &[Signature],
    depth: u64,
    bound: &mut Vec<Ty>,
    width: u8,
    operand: &CoreExpr,
) -> Result<Ty, Stop>
    ensures kept { IfOk result (λ t. bound.new.items ≡ bound.old.items) }
    ensures ty { IfOk result (λ t. (sign : Sign) → node_type (core.Cast sign width operand.now) (call_types signatures.now) bound.old.items ≡ Some t) }
{
    let a = type_of(alloc, signatures, depth, bound, operand)?;
    cast(alloc, width, &a)
}

#[cycle(types)]
fn type_slice(
    alloc: Global,
    signatures: &[Signature],
    depth: u64,
    bound: &mut Vec<Ty>,
    operand: &CoreExpr,
    from: u8,
    width: u8,
) -> Result<Ty, Stop>
    ensures kept { IfOk result (λ t. bound.new.items ≡ bound.old.items) }
    ensures ty { IfOk result (λ t. node_type (core.Slice operand.now from width) (call_types signatures.now) bound.old.items ≡ Some t) }
{
    let a = type_of(alloc, signatures, depth, bound, operand)?;
    slice(alloc, from, width, &a)
}

#[cycle(types)]
fn type_part(
    alloc: Global,
    signatures: &[Signature],
    depth: u64,
    bound: &mut Vec<Ty>,
    operand: &CoreExpr,
    start: &CoreExpr,
    width: u8,
) -> Result<Ty, Stop>
    ensures kept { IfOk result (λ t. bound.new.items ≡ bound.old.items) }
    ensures ty { IfOk result (λ t. node_type (core.Part operand.now start.now width) (call_types signatures.now) bound.old.items ≡ Some t) }
{
    let a = type_of(alloc, signatures, depth, bound, operand)?;
    let b = type_of(alloc, signatures, depth, bound, start)?;
    part(alloc, width, &a, &b)
}

#[cycle(types)]
fn type_element(
    alloc: Global,
    signatures: &[Signature],
    depth: u64,
    bound: &mut Vec<Ty>,
    operand: &CoreExpr,
    number: u64,
) -> Result<Ty, Stop>
    ensures kept { IfOk result (λ t. bound.new.items ≡ bound.old.items) }
    ensures ty { IfOk result (λ t. node_type (core.Element operand.now number) (call_types signatures.now) bound.old.items ≡ Some t) }
{
    let a = type_of(alloc, signatures, depth, bound, operand)?;
    element(alloc, number, &a)
}

#[cycle(types)]
fn type_index(
    alloc: Global,
    signatures: &[Signature],
    depth: u64,
    bound: &mut Vec<Ty>,
    array: &CoreExpr,
    place: &CoreExpr,
) -> Result<Ty, Stop>
    ensures kept { IfOk result (λ t. bound.new.items ≡ bound.old.items) }
    ensures ty { IfOk result (λ t. node_type (core.Index array.now place.now) (call_types signatures.now) bound.old.items ≡ Some t) }
{
    let a = type_of(alloc, signatures, depth, bound, array)?;
    let b = type_of(alloc, signatures, depth, bound, place)?;
    index(alloc, &a, &b)
}

#[cycle(types)]
fn type_update(
    alloc: Global,
    signatures: &[Signature],
    depth: u64,
    bound: &mut Vec<Ty>,
    array: &CoreExpr,
    place: &CoreExpr,
    value: &CoreExpr,
) -> Result<Ty, Stop>
    ensures kept { IfOk result (λ t. bound.new.items ≡ bound.old.items) }
    ensures ty { IfOk result (λ t. node_type (core.Update array.now place.now value.now) (call_types signatures.now) bound.old.items ≡ Some t) }
{
    let a = type_of(alloc, signatures, depth, bound, array)?;
    let b = type_of(alloc, signatures, depth, bound, place)?;
    let c = type_of(alloc, signatures, depth, bound, value)?;
    update(alloc, &a, &b, &c)
}

#[cycle(types)]
fn type_choose(
    alloc: Global,
    signatures: &[Signature],
    depth: u64,
    bound: &mut Vec<Ty>,
    test: &CoreExpr,
    yes: &CoreExpr,
    no: &CoreExpr,
) -> Result<Ty, Stop>
    ensures kept { IfOk result (λ t. bound.new.items ≡ bound.old.items) }
    ensures ty { IfOk result (λ t. node_type (core.Choose test.now yes.now no.now) (call_types signatures.now) bound.old.items ≡ Some t) }
{
    let bit = type_of(alloc, signatures, depth, bound, test)?;
    let one = type_of(alloc, signatures, depth, bound, yes)?;
    let zero = type_of(alloc, signatures, depth, bound, no)?;
    choice(alloc, &bit, one, &zero)
}

/// An expression over all that is bound, of which only so many stay bound.
#[cycle(types)]
fn type_behind(
    alloc: Global,
    signatures: &[Signature],
    depth: u64,
    bound: &mut Vec<Ty>,
    count: usize,
    body: &CoreExpr,
) -> Result<Ty, Stop>
    ensures kept { IfOk result (λ t. bound.new.items ≡ take count bound.old.items) }
    ensures ty { IfOk result (λ t. node_type body.now (call_types signatures.now) bound.old.items ≡ Some t) }
{
    let ty = type_of(alloc, signatures, depth, bound, body)?;
    bound.truncate(count);
    Ok(ty)
}

/// An expression over what a pattern binds of values of a type.
#[cycle(types)]
fn type_under(
    alloc: Global,
    signatures: &[Signature],
    depth: u64,
    bound: &mut Vec<Ty>,
    shape: &Shape,
    ty: &Ty,
    body: &CoreExpr,
) -> Result<Ty, Stop>
    ensures kept { IfOk result (λ t. bound.new.items ≡ bound.old.items) }
    ensures ty { IfOk result (λ t. and_then (binds_types true shape.now ty.now bound.old.items) (node_type body.now (call_types signatures.now)) ≡ Some t) }
{
    let count = bound.len();
    bind_all(alloc, shape, ty, bound)?;
    type_behind(alloc, signatures, depth, bound, count, body)
}

#[cycle(types)]
fn type_bind(
    alloc: Global,
    signatures: &[Signature],
    depth: u64,
    bound: &mut Vec<Ty>,
    value: &CoreExpr,
    shape: &Shape,
    body: &CoreExpr,
) -> Result<Ty, Stop>
    ensures kept { IfOk result (λ t. bound.new.items ≡ bound.old.items) }
    ensures ty { IfOk result (λ t. node_type (core.Bind value.now shape.now body.now) (call_types signatures.now) bound.old.items ≡ Some t) }
{
    let a = type_of(alloc, signatures, depth, bound, value)?;
    let ty = type_under(alloc, signatures, depth, bound, shape, &a, body)?;
    within(alloc, ty)
}

#[cycle(types)]
fn type_select(
    alloc: Global,
    signatures: &[Signature],
    depth: u64,
    bound: &mut Vec<Ty>,
    value: &CoreExpr,
    arms: &[Arm],
) -> Result<Ty, Stop>
    ensures kept { IfOk result (λ t. bound.new.items ≡ bound.old.items) }
    ensures ty { IfOk result (λ t. node_type (core.Select value.now arms.now) (call_types signatures.now) bound.old.items ≡ Some t) }
{
    let a = type_of(alloc, signatures, depth, bound, value)?;
    let ty = type_arms(alloc, signatures, depth, bound, arms, arms, &a)?;
    within(alloc, ty)
}

/// The type of the last of all arms, for a value of a type.
#[cycle(types)]
fn type_arms(
    alloc: Global,
    signatures: &[Signature],
    depth: u64,
    bound: &mut Vec<Ty>,
    all: &[Arm],
    arms: &[Arm],
    ty: &Ty,
) -> Result<Ty, Stop>
    ensures kept { IfOk result (λ t. bound.new.items ≡ bound.old.items) }
    ensures ty { IfOk result (λ t. ArmsTyped signatures.now all.now arms.now ty.now bound.old.items t) }
{
    match arms {
        [] => Err(Stop::Untyped),
        [last] => type_last(alloc, signatures, depth, bound, all, last, ty),
        [first, rest @ ..] => { type_first(alloc, signatures, depth, bound, all, first, rest, ty) }
    }
}

/// The type of an arm, which that of those behind it has to be too.
#[cycle(types)]
fn type_first(
    alloc: Global,
    signatures: &[Signature],
    depth: u64,
    bound: &mut Vec<Ty>,
    all: &[Arm],
    first: &Arm,
    rest: &[Arm],
    ty: &Ty,
) -> Result<Ty, Stop>
    requires { 1 ≤ length rest.now }
    ensures kept { IfOk result (λ t. bound.new.items ≡ bound.old.items) }
    ensures ty { IfOk result (λ t. ArmsTyped signatures.now all.now (first.now ∷ rest.now) ty.now bound.old.items t) }
{
    if depth == 0 {
        return Err(Stop::OutOfMemory);
    }
    let own = type_arm(alloc, signatures, depth, bound, first, ty)?;
    let others = type_arms(alloc, signatures, depth - 1, bound, all, rest, ty)?;
    alike(own, &others)
}

/// The type of an arm, over what it binds.
#[cycle(types)]
fn type_arm(
    alloc: Global,
    signatures: &[Signature],
    depth: u64,
    bound: &mut Vec<Ty>,
    arm: &Arm,
    ty: &Ty,
) -> Result<Ty, Stop>
    ensures kept { IfOk result (λ t. bound.new.items ≡ bound.old.items) }
    ensures ty { IfOk result (λ t. and_then (arm_binds (out-Arm arm.now).shapes ty.now bound.old.items) (node_type (out-Arm arm.now).value (call_types signatures.now)) ≡ Some t) }
{
    let count = bound.len();
    bind_arm(alloc, arm.shapes.as_slice(), ty, bound)?;
    type_behind(alloc, signatures, depth, bound, count, &arm.value)
}

/// The type of the last arm. It stands where no arm fits, too: so it binds nothing, or always fits, or some arm fits each value.
#[cycle(types)]
fn type_last(
    alloc: Global,
    signatures: &[Signature],
    depth: u64,
    bound: &mut Vec<Ty>,
    all: &[Arm],
    last: &Arm,
    ty: &Ty,
) -> Result<Ty, Stop>
    ensures kept { IfOk result (λ t. bound.new.items ≡ bound.old.items) }
    ensures ty { IfOk result (λ t. ArmsTyped signatures.now all.now (last.now ∷ []) ty.now bound.old.items t) }
{
    let count = bound.len();
    let certain = is_certain(alloc, last.shapes.as_slice(), ty, bound)?;
    bind_arm(alloc, last.shapes.as_slice(), ty, bound)?;
    let few = bound.len() == count;
    if stands(alloc, all, ty, certain, few)? {
        type_behind(alloc, signatures, depth, bound, count, &last.value)
    } else {
        Err(Stop::Untyped)
    }
}

/// Whether the last arm may stand where no arm fits: it is certain, binds nothing, or some arm is known to fit each value.
fn stands(alloc: Global, all: &[Arm], ty: &Ty, certain: bool, few: bool) -> Result<bool, AllocError>
    ensures { IfOk result (λ b. MatchBool b ((all_fit (shapes_of (map arm_node_type all.now)) ty.now || (certain || few)) ≡ true) (Unit {0})) }
{
    if certain || few {
        Ok(true)
    } else {
        all_fit(alloc, all, ty)
    }
}

#[cycle(types)]
fn type_loop(
    alloc: Global,
    signatures: &[Signature],
    depth: u64,
    bound: &mut Vec<Ty>,
    from: Bits,
    index: &Shape,
    shape: &Shape,
    body: &CoreExpr,
    start: &CoreExpr,
) -> Result<Ty, Stop>
    ensures kept { IfOk result (λ t. bound.new.items ≡ bound.old.items) }
    ensures ty { IfOk result (λ t. (turns : ℕ) → node_type (core.Loop turns from index.now shape.now body.now start.now) (call_types signatures.now) bound.old.items ≡ Some t) }
{
    let first = type_of(alloc, signatures, depth, bound, start)?;
    let last = type_turn(
        alloc, signatures, depth, bound, from, index, shape, body, &first,
    )?;
    let ty = alike(first, &last)?;
    within(alloc, ty)
}

/// The type of a turn of a loop, over an index and an accumulated value.
#[cycle(types)]
fn type_turn(
    alloc: Global,
    signatures: &[Signature],
    depth: u64,
    bound: &mut Vec<Ty>,
    from: Bits,
    index: &Shape,
    shape: &Shape,
    body: &CoreExpr,
    ty: &Ty,
) -> Result<Ty, Stop>
    ensures kept { IfOk result (λ t. bound.new.items ≡ bound.old.items) }
    ensures word { IfOk result (λ t. is_sound_word from ≡ true) }
    ensures ty { IfOk result (λ t. and_then (binds_types true index.now (Ty.Bits from.width) bound.old.items) (λ inner. and_then (binds_types true shape.now ty.now inner) (node_type body.now (call_types signatures.now))) ≡ Some t) }
{
    let count = bound.len();
    let place = Ty::Bits(u64::from(from.width()));
    bind_all(alloc, index, &place, bound)?;
    bind_all(alloc, shape, ty, bound)?;
    type_behind(alloc, signatures, depth, bound, count, body)
}

#[cycle(types)]
fn type_call(
    alloc: Global,
    signatures: &[Signature],
    depth: u64,
    bound: &mut Vec<Ty>,
    number: u64,
    operands: &[CoreExpr],
) -> Result<Ty, Stop>
    ensures kept { IfOk result (λ t. bound.new.items ≡ bound.old.items) }
    ensures ty { IfOk result (λ t. node_type (core.Call number operands.now) (call_types signatures.now) bound.old.items ≡ Some t) }
{
    let types = type_each(alloc, signatures, depth, bound, operands)?;
    called(alloc, signatures, number, types)
}

/// What a call of a function over operands of these types gives.
fn called(alloc: Global, signatures: &[Signature], number: u64, types: Vec<Ty>) -> Result<Ty, Stop>
    ensures { IfOk result (λ t. if_node (call_types signatures.now number types.items) ≡ Some t) }
{
    match result_of(signatures, number, types.as_slice()) {
        Some(ty) => copied(alloc, ty),
        None => Err(Stop::Unsigned(Call {
            function: number,
            arguments: types,
        })),
    }
}
