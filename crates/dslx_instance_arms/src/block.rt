//! Values that are taken apart for the rest of a block.

ghost use Rattle.std.specs.Prelude.{◌≡◌, ◌∷◌, [], List, Some, IfOk, OnOk};
ghost use Rattle.dslx_meaning.specs.Lists.{where_true};
ghost use Rattle.dslx_core.specs.Lowering.Functions.{CoreInstance};
ghost use Rattle.dslx_core.specs.Machines.Machine.Bodies.{doing, with_last, with_made};
ghost use Rattle.dslx_core.specs.Machines.Machine.Steps.{value_bound};
ghost use Rattle.dslx_core.specs.Machines.Machine.Tasks.{MakesBind};
ghost use Rattle.dslx_instance.specs.Tasks.Shown.{body_shown, instance_env_of};

use crate::held::{go_back, mark_of, take_boxed};
use dslx_core::Shape;
use dslx_core::lowering::LoweredExpr;
use dslx_instance::tasks::{BlockTask, LowerTask, OpenBody};
use dslx_scope_names::patterns::{BodyScope, bind_there};
use dslx_tree::{Expr, Module, Pattern, Stmt};
use std::alloc::{AllocError, Global};
use xb_value::Boxed;

/// What was made last is taken apart for the rest of a block; whether the pattern fits its type.
pub fn bind_value<'a>(
    body: &mut OpenBody<'a>,
    alloc: Global,
    text: &'a Module,
    pattern: &'a Pattern,
    rest: &'a [Stmt],
    last: &'a Option<Boxed<Expr>>,
) -> Result<bool, AllocError>
    ensures { IfOk result (λ is. (table : List CoreInstance) → where_true is (Some (body_shown body.new)) ≡ with_last (body_shown body.old).made (λ e made. value_bound (instance_env_of text.now table) e pattern.now rest.now last.now (with_made made (body_shown body.old)))) }
{
    match take_boxed(&mut body.made, alloc)? {
        Some(value) => bind_made(body, alloc, text, value, pattern, rest, last),
        None => Ok(false),
    }
}

/// The names are bound for the rest of the block, and no longer.
fn bind_made<'a>(
    body: &mut OpenBody<'a>,
    alloc: Global,
    text: &'a Module,
    value: Boxed<LoweredExpr>,
    pattern: &'a Pattern,
    rest: &'a [Stmt],
    last: &'a Option<Boxed<Expr>>,
) -> Result<bool, AllocError>
    ensures { IfOk result (λ is. (table : List CoreInstance) → where_true is (Some (body_shown body.new)) ≡ value_bound (instance_env_of text.now table) value pattern.now rest.now last.now (body_shown body.old)) }
{
    let back = mark_of(body);
    let known = BodyScope {
        text,
        parametric_args: body.given.as_slice(),
    };
    match bind_there(
        alloc,
        known,
        &mut body.locals,
        body.count,
        pattern,
        &value.get().ty,
    )? {
        Some(bound) => {
            body.count = bound.count;
            go_back(body, back)?;
            bind_later(body, value, bound.shape)?;
            body.first_block(alloc, BlockTask::Statements(rest, last))?;
            Ok(true)
        }
        None => Ok(false),
    }
}

/// This value is taken apart so for what is made last then.
fn bind_later<'a>(
    body: &mut OpenBody<'a>,
    value: Boxed<LoweredExpr>,
    shape: Shape,
) -> Result<(), AllocError>
    ensures { OnOk result (body_shown body.new ≡ doing (MakesBind value shape ∷ []) (body_shown body.old)) }
{
    body.first(LowerTask::Bind(value, shape))
}
