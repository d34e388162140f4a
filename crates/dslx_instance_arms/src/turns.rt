//! Loops.

ghost use Rattle.std.specs.Prelude.{◌≡◌, ◌∷◌, [], List, Some, IfOk};
ghost use Rattle.dslx_tree.specs.declared.expr.For.{out-For};
ghost use Rattle.dslx_meaning.specs.Lists.{and_then, where_true};
ghost use Rattle.dslx_meaning.specs.Values.{bits_of as the_bits};
ghost use Rattle.dslx_core.specs.Lowering.CoreScopes.{constant_at};
ghost use Rattle.dslx_core.specs.Lowering.Functions.{CoreInstance};
ghost use Rattle.dslx_core.specs.Machines.Machine.Bodies.{bound_as, doing, gives, scope_in, restores, with_last, with_made};
ghost use Rattle.dslx_core.specs.Machines.Machine.Steps.{loop_begins, loop_made, turn_shaped};
ghost use Rattle.dslx_core.specs.Machines.Machine.Tasks.{LowersBlock, MakesLoop};
ghost use Rattle.dslx_instance_arms.specs.Inner.Bounds.{bounds_of};
ghost use Rattle.dslx_instance.specs.Tasks.Shown.{body_shown, instance_env_of};

use crate::held::{go_back, mark_of, take_boxed};
use dslx_core::Shape;
use dslx_core::lowering::LoweredExpr;
use dslx_core_exprs::calls::lower_loop;
use dslx_instance::tasks::{BlockTask, LoopTask, OpenBody};
use dslx_meaning::SignedWord;
use dslx_scope_names::patterns::{BodyScope, turn_there};
use dslx_scope_names::scopes::constant_in_body;
use dslx_tree::{Expr, For, Module};
use dslx_values::bits_of;
use std::alloc::{AllocError, Global};
use xb_value::Boxed;

/// What was made last is the first index of a loop, and what was made before is what it begins with.
pub fn start_loop<'a>(
    body: &mut OpenBody<'a>,
    alloc: Global,
    text: &'a Module,
    turns: &'a For,
) -> Result<bool, AllocError>
    ensures { IfOk result (λ is. (table : List CoreInstance) → where_true is (Some (body_shown body.new)) ≡ with_last (body_shown body.old).made (λ index made. with_last made (λ start made. loop_begins turns.now start index (instance_env_of text.now table) (with_made made (body_shown body.old))))) }
{
    match take_boxed(&mut body.made, alloc)? {
        Some(index) => match take_boxed(&mut body.made, alloc)? {
            Some(start) => begin_between(body, alloc, text, turns, start, index),
            None => Ok(false),
        },
        None => Ok(false),
    }
}

/// Both bounds are constants.
fn begin_between<'a>(
    body: &mut OpenBody<'a>,
    alloc: Global,
    text: &'a Module,
    turns: &'a For,
    start: Boxed<LoweredExpr>,
    index: Boxed<LoweredExpr>,
) -> Result<bool, AllocError>
    ensures { IfOk result (λ is. (table : List CoreInstance) → where_true is (Some (body_shown body.new)) ≡ loop_begins turns.now start index (instance_env_of text.now table) (body_shown body.old)) }
{
    match bounds_in(alloc, text, body, turns)? {
        Some((from, to)) => begin_turns(body, alloc, text, turns, start, index, from, to),
        None => Ok(false),
    }
}

/// The bounds of a loop, if both are bits.
fn bounds_in<'b, 'a: 'b>(
    alloc: Global,
    text: &'b Module,
    body: &'b OpenBody<'a>,
    turns: &'b For,
) -> Result<Option<(SignedWord, SignedWord)>, AllocError>
    ensures { IfOk result (λ o. (table : List CoreInstance) → o ≡ bounds_of (scope_in (instance_env_of text.now table) (body_shown body.now)) turns.now) }
{
    let from = bound_in(alloc, text, body, &turns.from)?;
    let to = bound_in(alloc, text, body, &turns.to)?;
    match (from, to) {
        (Some(from), Some(to)) => Ok(Some((from, to))),
        _ => Ok(None),
    }
}

/// The bits of a constant.
fn bound_in<'b, 'a: 'b>(
    alloc: Global,
    text: &'b Module,
    body: &'b OpenBody<'a>,
    expr: &'b Expr,
) -> Result<Option<SignedWord>, AllocError>
    ensures { IfOk result (λ w. (table : List CoreInstance) → w ≡ and_then (constant_at (scope_in (instance_env_of text.now table) (body_shown body.now)) expr.now) the_bits) }
{
    match constant_in_body(alloc, text, body, expr)? {
        Some(value) => Ok(bits_of(&value)),
        None => Ok(None),
    }
}

/// An index and what is accumulated are bound for the body of the loop, and no longer.
fn begin_turns<'a>(
    body: &mut OpenBody<'a>,
    alloc: Global,
    text: &'a Module,
    turns: &'a For,
    start: Boxed<LoweredExpr>,
    index: Boxed<LoweredExpr>,
    from: SignedWord,
    to: SignedWord,
) -> Result<bool, AllocError>
    ensures { IfOk result (λ is. (table : List CoreInstance) → where_true is (Some (body_shown body.new)) ≡ and_then (turn_shaped (scope_in (instance_env_of text.now table) (body_shown body.old)) turns.now index.ty start.ty) (λ t. Some (bound_as t.1.scope (doing (LowersBlock (out-For turns.now).body ∷ MakesLoop start from to t.0 t.1.shape ∷ restores (body_shown body.old) ∷ []) (body_shown body.old))))) }
{
    let back = mark_of(body);
    let known = BodyScope {
        text,
        parametric_args: body.given.as_slice(),
    };
    match turn_there(
        alloc,
        known,
        &mut body.locals,
        body.count,
        turns,
        &index.get().ty,
        &start.get().ty,
    )? {
        Some(bound) => {
            body.count = bound.count;
            go_back(body, back)?;
            let start = start.into_inner();
            let task = LoopTask::Make(start, from, to, bound.index, bound.accumulator);
            body.first_loop(alloc, task)?;
            body.first_block(alloc, BlockTask::Block(&turns.body))?;
            Ok(true)
        }
        None => Ok(false),
    }
}

/// What was made last is the body of a loop.
pub fn make_loop(
    body: &mut OpenBody,
    alloc: Global,
    start: LoweredExpr,
    from: SignedWord,
    to: SignedWord,
    index: Shape,
    accumulator: Shape,
) -> Result<bool, AllocError>
    ensures { IfOk result (λ is. where_true is (Some (body_shown body.new)) ≡ with_last (body_shown body.old).made (λ r made. gives (loop_made start from to index accumulator r) (with_made made (body_shown body.old)))) }
{
    match body.made.take_off() {
        Some(last) => {
            let made = lower_loop(alloc, start, from, to, index, accumulator, last)?;
            body.give_if(made)
        }
        None => Ok(false),
    }
}
