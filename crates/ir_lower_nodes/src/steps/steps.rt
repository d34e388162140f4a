//! Steps, one function for each kind.

ghost use Rattle.std.specs.Prelude.{◌≡◌, ℕ, List, get_or, IfOk, Some, None};
ghost use Rattle.dslx_core.specs.declared.design.Function.{Function};
ghost use Rattle.dslx_core.specs.declared.step.Step.TheVariants as step;
ghost use Rattle.ir_lower_nodes.specs.Steps.Steps.{ConditionLowers, StepLowers, StepsLower};

use crate::exprs::lower;
use crate::patterns::bind;
use crate::steps::sites::{bind_pair, bind_token, channel_of, put_receive, put_send};
use dslx_core::{CoreExpr, Function, Receive, Send, Shape, Step};
use ir_rebuild::putting::Nodes;
use ir_tree::Operand;
use std::alloc::{AllocError, Global};

/// Puts the nodes of steps behind the token of the last site, and answers the token that is the last one then. What the steps bind
/// stands behind what is bound. What is so deep as said counts as want of memory.
pub fn lower_steps(
    alloc: Global,
    functions: &[Function],
    depth: u64,
    channels: &[u32],
    nodes: &mut Nodes,
    slots: &mut Vec<Operand>,
    token: Operand,
    steps: &[Step],
) -> Result<Operand, AllocError>
    ensures { IfOk result (λ last. StepsLower functions.now channels.now steps.now slots.old.items slots.new.items nodes.old nodes.new token last) }
{
    let mut last = token;
    'steps: for step in steps {
        last = lower_step(alloc, functions, depth, channels, nodes, slots, last, step)?;
    }
    Ok(last)
}

/// The same for one step.
pub fn lower_step(
    alloc: Global,
    functions: &[Function],
    depth: u64,
    channels: &[u32],
    nodes: &mut Nodes,
    slots: &mut Vec<Operand>,
    token: Operand,
    step: &Step,
) -> Result<Operand, AllocError>
    ensures { IfOk result (λ last. StepLowers functions.now channels.now step.now slots.old.items slots.new.items nodes.old nodes.new token last) }
{
    match step {
        Step::Bind(expr, shape) => {
            lower_bind(alloc, functions, depth, nodes, slots, token, expr, shape)
        }
        Step::Receive(receive) => lower_receive(
            alloc, functions, depth, channels, nodes, slots, token, receive,
        ),
        Step::Send(send) => lower_send(
            alloc, functions, depth, channels, nodes, slots, token, send,
        ),
    }
}

/// Binds the parts of an expression's value.
fn lower_bind(
    alloc: Global,
    functions: &[Function],
    depth: u64,
    nodes: &mut Nodes,
    slots: &mut Vec<Operand>,
    token: Operand,
    expr: &CoreExpr,
    shape: &Shape,
) -> Result<Operand, AllocError>
    ensures { IfOk result (λ last. (cs : List ℕ) → StepLowers functions.now cs (step.Bind expr.now shape.now) slots.old.items slots.new.items nodes.old nodes.new token last) }
{
    let value = lower(alloc, functions, depth, nodes, slots, expr)?;
    bind(nodes, shape, value, slots)?;
    Ok(token)
}

fn lower_receive(
    alloc: Global,
    functions: &[Function],
    depth: u64,
    channels: &[u32],
    nodes: &mut Nodes,
    slots: &mut Vec<Operand>,
    token: Operand,
    receive: &Receive,
) -> Result<Operand, AllocError>
    ensures { IfOk result (λ last. StepLowers functions.now channels.now (step.Receive receive.now) slots.old.items slots.new.items nodes.old nodes.new token last) }
{
    let channel = channel_of(channels, receive.member);
    match &receive.condition {
        None => receive_always(alloc, nodes, slots, token, channel, receive),
        Some((condition, other)) => receive_under(
            alloc, functions, depth, nodes, slots, token, channel, receive, condition, other,
        ),
    }
}

/// A receive without a condition.
fn receive_always(
    alloc: Global,
    nodes: &mut Nodes,
    slots: &mut Vec<Operand>,
    token: Operand,
    channel: u32,
    receive: &Receive,
) -> Result<Operand, AllocError>
    ensures { IfOk result (λ last. (fs : List Function) (cs : List ℕ) → channel ≡ get_or cs receive.now.member 0 → receive.now.condition ≡ None →
        StepLowers fs cs (step.Receive receive.now) slots.old.items slots.new.items nodes.old nodes.new token last) }
{
    let site = put_receive(alloc, nodes, token, None, channel, &receive.word)?;
    let last = nodes.element(site, 0)?;
    let word = nodes.element(site, 1)?;
    bind_pair(nodes, &receive.shape, word, slots)?;
    Ok(last)
}

/// A receive under a condition: where it doesn't hold, the other value stands for the word.
fn receive_under(
    alloc: Global,
    functions: &[Function],
    depth: u64,
    nodes: &mut Nodes,
    slots: &mut Vec<Operand>,
    token: Operand,
    channel: u32,
    receive: &Receive,
    condition: &CoreExpr,
    other: &CoreExpr,
) -> Result<Operand, AllocError>
    ensures { IfOk result (λ last. (cs : List ℕ) → channel ≡ get_or cs receive.now.member 0 → receive.now.condition ≡ Some (condition.now, other.now) →
        StepLowers functions.now cs (step.Receive receive.now) slots.old.items slots.new.items nodes.old nodes.new token last) }
{
    let on = lower(alloc, functions, depth, nodes, slots, condition)?;
    let off = lower(alloc, functions, depth, nodes, slots, other)?;
    let site = put_receive(alloc, nodes, token, Some(on), channel, &receive.word)?;
    let last = nodes.element(site, 0)?;
    let word = nodes.element(site, 1)?;
    let value = nodes.choose(on, word, off)?;
    bind_pair(nodes, &receive.shape, value, slots)?;
    Ok(last)
}

/// The operand of a condition, if there is one.
fn lower_if(
    alloc: Global,
    functions: &[Function],
    depth: u64,
    nodes: &mut Nodes,
    slots: &mut Vec<Operand>,
    condition: &Option<CoreExpr>,
) -> Result<Option<Operand>, AllocError>
    ensures kept { IfOk result (λ on. slots.new.items ≡ slots.old.items) }
    ensures value { IfOk result (λ on. ConditionLowers functions.now condition.now slots.old.items nodes.old nodes.new on) }
{
    match condition {
        None => Ok(None),
        Some(condition) => Ok(Some(lower(alloc, functions, depth, nodes, slots, condition)?)),
    }
}

fn lower_send(
    alloc: Global,
    functions: &[Function],
    depth: u64,
    channels: &[u32],
    nodes: &mut Nodes,
    slots: &mut Vec<Operand>,
    token: Operand,
    send: &Send,
) -> Result<Operand, AllocError>
    ensures { IfOk result (λ last. StepLowers functions.now channels.now (step.Send send.now) slots.old.items slots.new.items nodes.old nodes.new token last) }
{
    let channel = channel_of(channels, send.member);
    let on = lower_if(alloc, functions, depth, nodes, slots, &send.condition)?;
    let word = lower(alloc, functions, depth, nodes, slots, &send.word)?;
    let last = put_send(alloc, nodes, token, on, channel, word)?;
    bind_token(nodes, &send.shape, slots)?;
    Ok(last)
}
