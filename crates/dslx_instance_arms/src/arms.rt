//! The arms of a match.

ghost use Rattle.std.specs.Prelude.{◌≡◌, ◌∷◌, ◌++◌, [], List, Some, IfOk, OnOk};
ghost use Rattle.dslx_meaning.specs.Lists.{where_true};
ghost use Rattle.dslx_tree.specs.declared.expr.Arm.{out-Arm};
ghost use Rattle.dslx_core.specs.Lowering.Functions.{CoreInstance};
ghost use Rattle.dslx_core.specs.Machines.Machine.Arms.{alternatives_begin, arm_begins, arm_taken, arms_on, binding_begins};
ghost use Rattle.dslx_core.specs.Machines.Machine.Bodies.{doing, with_last, with_made};
ghost use Rattle.dslx_core.specs.Machines.Machine.Tasks.{LowersExpr, Restores, TakesArm};
ghost use Rattle.dslx_instance.specs.Tasks.Shown.{body_shown, match_shown, instance_env_of};

use crate::held::{Mark, go_back, mark_of, take_boxed};
use dslx_core::Shape;
use dslx_core::lowering::{LoweredArm, LoweredExpr};
use dslx_core_exprs::calls::{arm_of, lower_select};
use dslx_instance::tasks::{ArmsTask, LowerTask, MatchWork, OpenBody};
use dslx_scope_names::patterns::{BodyScope, alternatives_there, bind_there, binds_nothing_new};
use dslx_scope_names::scopes::scope_env_in;
use dslx_tree::{Arm, Module, Pattern};
use std::alloc::{AllocError, Global};
use xb_value::{Boxed, Seq};

/// What was made last is matched by these arms.
pub fn begin_arms<'a>(
    body: &mut OpenBody<'a>,
    alloc: Global,
    text: &'a Module,
    arms: &'a [Arm],
) -> Result<bool, AllocError>
    ensures { IfOk result (λ is. (table : List CoreInstance) → where_true is (Some (body_shown body.new)) ≡ with_last (body_shown body.old).made (λ e made. arms_on (instance_env_of text.now table) e [] arms.now (with_made made (body_shown body.old)))) }
{
    match take_boxed(&mut body.made, alloc)? {
        Some(value) => next_arm(body, alloc, text, value, Vec::new(alloc), arms),
        None => Ok(false),
    }
}

/// Goes on with the arms that are left, behind these; whether there is the next, or the match.
fn next_arm<'a>(
    body: &mut OpenBody<'a>,
    alloc: Global,
    text: &'a Module,
    value: Boxed<LoweredExpr>,
    before: Vec<LoweredArm>,
    arms: &'a [Arm],
) -> Result<bool, AllocError>
    ensures { IfOk result (λ is. (table : List CoreInstance) → where_true is (Some (body_shown body.new)) ≡ arms_on (instance_env_of text.now table) value before.items arms.now (body_shown body.old)) }
{
    match arms {
        [] => {
            let made = lower_select(alloc, value.into_inner(), before)?;
            body.give_if(made)
        }
        [first, rest @ ..] => {
            let work = MatchWork {
                value: value.into_inner(),
                before,
                arm: first,
                behind: rest,
            };
            begin_arm(body, alloc, text, Boxed::new(alloc, work)?)
        }
    }
}

/// An arm whose patterns bind nothing may have several of them.
fn begin_arm<'a>(
    body: &mut OpenBody<'a>,
    alloc: Global,
    text: &'a Module,
    work: Boxed<MatchWork<'a>>,
) -> Result<bool, AllocError>
    ensures { IfOk result (λ is. (table : List CoreInstance) → where_true is (Some (body_shown body.new)) ≡ arm_begins (instance_env_of text.now table) (match_shown work.entry) (body_shown body.old)) }
{
    let patterns = work.get().arm.patterns.as_slice();
    if binds_nothing_new(text, patterns) {
        begin_alternatives(body, alloc, text, work, patterns)
    } else {
        begin_binding(body, alloc, text, work, patterns)
    }
}

fn begin_alternatives<'a>(
    body: &mut OpenBody<'a>,
    alloc: Global,
    text: &'a Module,
    work: Boxed<MatchWork<'a>>,
    patterns: &'a [Pattern],
) -> Result<bool, AllocError>
    ensures { IfOk result (λ is. (table : List CoreInstance) → where_true is (Some (body_shown body.new)) ≡ alternatives_begin (instance_env_of text.now table) (match_shown work.entry) patterns.now (body_shown body.old)) }
{
    let context = scope_env_in(text, body);
    match alternatives_there(alloc, context, body.count, patterns, &work.get().value.ty)? {
        Some(shapes) => {
            let arm = work.get().arm;
            body.first_arms(alloc, ArmsTask::TakeArm(work.into_inner(), shapes))?;
            body.first(LowerTask::Expr(&arm.value))?;
            Ok(true)
        }
        None => Ok(false),
    }
}

/// The one pattern of an arm may bind names.
fn begin_binding<'a>(
    body: &mut OpenBody<'a>,
    alloc: Global,
    text: &'a Module,
    work: Boxed<MatchWork<'a>>,
    patterns: &'a [Pattern],
) -> Result<bool, AllocError>
    ensures { IfOk result (λ is. (table : List CoreInstance) → where_true is (Some (body_shown body.new)) ≡ binding_begins (instance_env_of text.now table) (match_shown work.entry) patterns.now (body_shown body.old)) }
{
    match patterns {
        [pattern] => begin_pattern(body, alloc, text, work, pattern),
        _ => Ok(false),
    }
}

/// The names are bound for the arm, and no longer.
fn begin_pattern<'a>(
    body: &mut OpenBody<'a>,
    alloc: Global,
    text: &'a Module,
    work: Boxed<MatchWork<'a>>,
    pattern: &'a Pattern,
) -> Result<bool, AllocError>
    ensures { IfOk result (λ is. (table : List CoreInstance) → where_true is (Some (body_shown body.new)) ≡ binding_begins (instance_env_of text.now table) (match_shown work.entry) (pattern.now ∷ []) (body_shown body.old)) }
{
    let back = mark_of(body);
    let known = BodyScope {
        text,
        parametric_args: body.given.as_slice(),
    };
    match bind_there(
        alloc,
        known,
        &mut body.locals,
        body.count,
        pattern,
        &work.get().value.ty,
    )? {
        Some(bound) => {
            body.count = bound.count;
            begin_bound(body, alloc, work, bound.shape, back)?;
            Ok(true)
        }
        None => Ok(false),
    }
}

/// The value of an arm of one shape is to be lowered, and then what it binds forgotten.
fn begin_bound<'a>(
    body: &mut OpenBody<'a>,
    alloc: Global,
    work: Boxed<MatchWork<'a>>,
    shape: Shape,
    back: Mark,
) -> Result<(), AllocError>
    ensures { OnOk result (body_shown body.new ≡ doing (LowersExpr (out-Arm work.entry.arm.now).value ∷ Restores back.names back.count ∷ TakesArm (match_shown work.entry) (shape ∷ []) ∷ []) (body_shown body.old)) }
{
    let arm = work.get().arm;
    let shapes = one_shape(alloc, shape)?;
    body.first_arms(alloc, ArmsTask::TakeArm(work.into_inner(), shapes))?;
    go_back(body, back)?;
    body.first(LowerTask::Expr(&arm.value))
}

fn one_shape(alloc: Global, shape: Shape) -> Result<Seq<Shape>, AllocError>
    ensures { IfOk result (λ shapes. shapes ≡ shape ∷ []) }
{
    let mut shapes = Vec::new(alloc);
    shapes.push(shape)?;
    Ok(Seq::from_vec(shapes))
}

/// What was made last is the value of an arm of these shapes; goes on with the next arm.
pub fn take_arm<'a>(
    body: &mut OpenBody<'a>,
    alloc: Global,
    text: &'a Module,
    work: MatchWork<'a>,
    shapes: Seq<Shape>,
) -> Result<bool, AllocError>
    ensures { IfOk result (λ is. (table : List CoreInstance) → where_true is (Some (body_shown body.new)) ≡ with_last (body_shown body.old).made (λ v made. arm_taken (instance_env_of text.now table) (match_shown work.entry) shapes v (with_made made (body_shown body.old)))) }
{
    let work = Boxed::new(alloc, work)?;
    match take_boxed(&mut body.made, alloc)? {
        Some(made) => {
            let MatchWork {
                value,
                before,
                behind,
                ..
            } = work.into_inner();
            let value = Boxed::new(alloc, value)?;
            let before = put_behind(before, arm_of(shapes, made.into_inner()))?;
            next_arm(body, alloc, text, value, before, behind)
        }
        None => Ok(false),
    }
}

/// The arms, and one more behind them.
fn put_behind(mut arms: Vec<LoweredArm>, arm: LoweredArm) -> Result<Vec<LoweredArm>, AllocError>
    ensures { IfOk result (λ more. more.items ≡ arms.items ++ arm ∷ []) }
{
    arms.push(arm)?;
    Ok(arms)
}
