//! The types of what steps bind.

ghost use Rattle.std.specs.Prelude.{◌≡◌, Option, IfOk, OnOk};
ghost use Rattle.xb_value.specs.declared.ty.Ty.{Ty as AnyTy};
ghost use Rattle.dslx_core.specs.declared.step.Step.TheVariants as step;
ghost use Rattle.dslx_core.specs.Types.Typing.{if_alike};
ghost use Rattle.ir_lower_nodes.specs.Exprs.NodeTypes.{if_node, node_type};
ghost use Rattle.ir_lower_nodes.specs.Steps.StepTypes.{node_otherwise, pair_type, step_node_binds, steps_node_bind, under_node_condition};
ghost use Rattle.ir_lower.specs.Types.Signatures.{call_types};
ghost use Rattle.ir_lower.specs.Types.Typed.{InstanceTyped};
ghost use Rattle.ir_lower.specs.Types.Words.{word_at};

use crate::types::aggregates::{alike, is_bit, type_at};
use crate::types::binding::bind_all;
use crate::types::exprs::type_of;
use crate::types::limits::within;
use crate::types::signature::Signature;
use crate::types::stop::Stop;
use dslx_core::{CoreExpr, Instance, Receive, Send, Shape, Step};
use std::alloc::Global;
use xb_value::{Seq, Ty};

/// The state of an instance is one that a node may have, and so is each part of its steps and of its next state, which is of the type of
/// the state. Words of these types go at its members.
pub fn check_steps(
    alloc: Global,
    signatures: &[Signature],
    depth: u64,
    words: &[Ty],
    instance: &Instance,
) -> Result<(), Stop>
    ensures { OnOk result (InstanceTyped signatures.now words.now instance.now) }
{
    let state = within(alloc, instance.state.copy(alloc)?)?;
    let mut bound = Vec::new(alloc);
    bound.push(state)?;
    let steps = instance.steps.as_slice();
    bind_steps(alloc, signatures, depth, words, &mut bound, steps)?;
    let next = type_of(alloc, signatures, depth, &mut bound, &instance.next)?;
    is_same(&next, &instance.state)
}

/// The two are one type.
fn is_same(ty: &Ty, other: &Ty) -> Result<(), Stop>
    ensures { OnOk result (ty.now ≡ other.now) }
{
    if ty.is(other) {
        Ok(())
    } else {
        Err(Stop::Untyped)
    }
}

/// Puts the types of what steps bind behind those that are bound.
fn bind_steps(
    alloc: Global,
    signatures: &[Signature],
    depth: u64,
    words: &[Ty],
    bound: &mut Vec<Ty>,
    steps: &[Step],
) -> Result<(), Stop>
    ensures { OnOk result (steps_node_bind (call_types signatures.now) (word_at words.now) steps.now bound.old.items ≡ Some bound.new.items) }
{
    'steps: for step in steps {
        bind_step(alloc, signatures, depth, words, bound, step)?;
    }
    Ok(())
}

/// The same for one step.
fn bind_step(
    alloc: Global,
    signatures: &[Signature],
    depth: u64,
    words: &[Ty],
    bound: &mut Vec<Ty>,
    step: &Step,
) -> Result<(), Stop>
    ensures { OnOk result (step_node_binds (call_types signatures.now) (word_at words.now) step.now bound.old.items ≡ Some bound.new.items) }
{
    match step {
        Step::Bind(expr, shape) => bind_value(alloc, signatures, depth, words, bound, expr, shape),
        Step::Receive(receive) => bind_receive(alloc, signatures, depth, words, bound, receive),
        Step::Send(send) => bind_send(alloc, signatures, depth, words, bound, send),
    }
}

fn bind_value(
    alloc: Global,
    signatures: &[Signature],
    depth: u64,
    words: &[Ty],
    bound: &mut Vec<Ty>,
    expr: &CoreExpr,
    shape: &Shape,
) -> Result<(), Stop>
    ensures { OnOk result (step_node_binds (call_types signatures.now) (word_at words.now) (step.Bind expr.now shape.now) bound.old.items ≡ Some bound.new.items) }
{
    let ty = type_of(alloc, signatures, depth, bound, expr)?;
    bind_all(alloc, shape, &ty, bound)
}

fn bind_receive(
    alloc: Global,
    signatures: &[Signature],
    depth: u64,
    words: &[Ty],
    bound: &mut Vec<Ty>,
    receive: &Receive,
) -> Result<(), Stop>
    ensures { OnOk result (step_node_binds (call_types signatures.now) (word_at words.now) (step.Receive receive.now) bound.old.items ≡ Some bound.new.items) }
{
    let own = type_at(alloc, words, receive.member)?;
    let word = alike(receive.word.copy(alloc)?, &own)?;
    type_otherwise(alloc, signatures, depth, bound, &word, &receive.condition)?;
    let pair = pair_type(alloc, &word)?;
    bind_all(alloc, &receive.shape, &pair, bound)
}

/// A token and a word of a type, if a node may have both together.
fn pair_type(alloc: Global, word: &Ty) -> Result<Ty, Stop>
    ensures { IfOk result (λ t. if_node (Some (pair_type word.now)) ≡ Some t) }
{
    let mut types = Vec::new(alloc);
    types.push(Ty::Tuple(Seq::new(alloc)))?;
    types.push(word.copy(alloc)?)?;
    within(alloc, Ty::Tuple(Seq::from_vec(types)))
}

/// The word where nothing is received, if there is one, is of this type.
fn type_otherwise(
    alloc: Global,
    signatures: &[Signature],
    depth: u64,
    bound: &mut Vec<Ty>,
    word: &Ty,
    condition: &Option<(CoreExpr, CoreExpr)>,
) -> Result<(), Stop>
    ensures kept { OnOk result (bound.new.items ≡ bound.old.items) }
    ensures ty { OnOk result (node_otherwise (call_types signatures.now) bound.old.items word.now condition.now ≡ Some word.now) }
{
    match condition {
        None => Ok(()),
        Some((condition, other)) => {
            type_other(alloc, signatures, depth, bound, word, condition, other)
        }
    }
}

/// A condition is a bit, and the other word is of this type.
fn type_other(
    alloc: Global,
    signatures: &[Signature],
    depth: u64,
    bound: &mut Vec<Ty>,
    word: &Ty,
    condition: &CoreExpr,
    other: &CoreExpr,
) -> Result<(), Stop>
    ensures kept { OnOk result (bound.new.items ≡ bound.old.items) }
    ensures ty { OnOk result (node_otherwise (call_types signatures.now) bound.old.items word.now (Some (condition.now, other.now)) ≡ Some word.now) }
{
    type_condition(alloc, signatures, depth, bound, condition)?;
    let own = type_of(alloc, signatures, depth, bound, other)?;
    is_same(word, &own)
}

/// A condition is a bit.
fn type_condition(
    alloc: Global,
    signatures: &[Signature],
    depth: u64,
    bound: &mut Vec<Ty>,
    condition: &CoreExpr,
) -> Result<(), Stop>
    ensures kept { OnOk result (bound.new.items ≡ bound.old.items) }
    ensures ty { OnOk result (if_alike (Ty.Bits 1) (node_type condition.now (call_types signatures.now) bound.old.items) ≡ Some (Ty.Bits 1)) }
{
    let ty = type_of(alloc, signatures, depth, bound, condition)?;
    is_same(&Ty::Bits(1), &ty)
}

fn bind_send(
    alloc: Global,
    signatures: &[Signature],
    depth: u64,
    words: &[Ty],
    bound: &mut Vec<Ty>,
    send: &Send,
) -> Result<(), Stop>
    ensures { OnOk result (step_node_binds (call_types signatures.now) (word_at words.now) (step.Send send.now) bound.old.items ≡ Some bound.new.items) }
{
    let own = type_at(alloc, words, send.member)?;
    type_if(alloc, signatures, depth, bound, &send.condition)?;
    let word = type_of(alloc, signatures, depth, bound, &send.word)?;
    is_same(&own, &word)?;
    let token = Ty::Tuple(Seq::new(alloc));
    bind_all(alloc, &send.shape, &token, bound)
}

/// A condition, if there is one, is a bit.
fn type_if(
    alloc: Global,
    signatures: &[Signature],
    depth: u64,
    bound: &mut Vec<Ty>,
    condition: &Option<CoreExpr>,
) -> Result<(), Stop>
    ensures kept { OnOk result (bound.new.items ≡ bound.old.items) }
    ensures ty { OnOk result ((t : Option AnyTy) → under_node_condition (call_types signatures.now) bound.old.items condition.now t ≡ t) }
{
    match condition {
        None => Ok(()),
        Some(condition) => type_condition(alloc, signatures, depth, bound, condition),
    }
}
