//! Expressions whose parts are to be lowered first. Each says that there is such a step.

ghost use Rattle.std.specs.Prelude.{◌≡◌, ◌∷◌, [], List, Some, IfOk};
ghost use Rattle.dslx_tree.specs.declared.expr.For.{out-For};
ghost use Rattle.dslx_meaning.specs.Lists.{where_true};
ghost use Rattle.dslx_core.specs.Lowering.Functions.{CoreInstance};
ghost use Rattle.dslx_core.specs.Machines.Machine.Bodies.{doing};
ghost use Rattle.dslx_core.specs.Machines.Machine.Tasks.{LoopBegins, LowersArms, LowersBlock, LowersExpr, Makes, MakesChoice};
ghost use Rattle.dslx_param.specs.Run.Inner.Structs.{struct_named_begins};
ghost use Rattle.dslx_instance.specs.Tasks.Shown.{body_shown, last_shown, instance_env_of};

use base::texts::Name;
use dslx_instance::tasks::{BlockTask, LastMaker, OpenBody};
use dslx_instance_parts::{begin_choice, begin_loop, begin_match, begin_struct, struct_named};
use dslx_tree::{Arm, Block, Expr, FieldValue, For, Module};
use std::alloc::{AllocError, Global};
use xb_value::Boxed;

/// Something is made of one operand.
pub(crate) fn make_of_one<'a>(
    body: &mut OpenBody<'a>,
    alloc: Global,
    operand: &'a Expr,
    maker: LastMaker<'a>,
) -> Result<bool, AllocError>
    ensures { IfOk result (λ is. where_true is (Some (body_shown body.new)) ≡ Some (doing (LowersExpr operand.now ∷ Makes (last_shown maker.entry) ∷ []) (body_shown body.old))) }
{
    body.expr_then_block(alloc, operand, BlockTask::Make(maker))?;
    Ok(true)
}

/// Something is made of two operands.
pub(crate) fn make_of_two<'a>(
    body: &mut OpenBody<'a>,
    alloc: Global,
    left: &'a Expr,
    right: &'a Expr,
    maker: LastMaker<'a>,
) -> Result<bool, AllocError>
    ensures { IfOk result (λ is. where_true is (Some (body_shown body.new)) ≡ Some (doing (LowersExpr left.now ∷ LowersExpr right.now ∷ Makes (last_shown maker.entry) ∷ []) (body_shown body.old))) }
{
    body.both_then_block(alloc, left, right, BlockTask::Make(maker))?;
    Ok(true)
}

pub(crate) fn first_block<'a>(
    body: &mut OpenBody<'a>,
    alloc: Global,
    block: &'a Block,
) -> Result<bool, AllocError>
    ensures { IfOk result (λ is. where_true is (Some (body_shown body.new)) ≡ Some (doing (LowersBlock block.now ∷ []) (body_shown body.old))) }
{
    body.first_block(alloc, BlockTask::Block(block))?;
    Ok(true)
}

pub(crate) fn first_choice<'a>(
    body: &mut OpenBody<'a>,
    alloc: Global,
    condition: &'a Expr,
    yes: &'a Block,
    no: &'a Expr,
) -> Result<bool, AllocError>
    ensures { IfOk result (λ is. where_true is (Some (body_shown body.new)) ≡ Some (doing (LowersExpr condition.now ∷ LowersBlock yes.now ∷ LowersExpr no.now ∷ Makes MakesChoice ∷ []) (body_shown body.old))) }
{
    begin_choice(body, alloc, condition, yes, no)?;
    Ok(true)
}

pub(crate) fn first_match<'a>(
    body: &mut OpenBody<'a>,
    alloc: Global,
    value: &'a Expr,
    arms: &'a [Arm],
) -> Result<bool, AllocError>
    ensures { IfOk result (λ is. where_true is (Some (body_shown body.new)) ≡ Some (doing (LowersExpr value.now ∷ LowersArms arms.now ∷ []) (body_shown body.old))) }
{
    begin_match(body, alloc, value, arms)?;
    Ok(true)
}

pub(crate) fn first_loop<'a>(
    body: &mut OpenBody<'a>,
    alloc: Global,
    turns: &'a For,
) -> Result<bool, AllocError>
    ensures { IfOk result (λ is. where_true is (Some (body_shown body.new)) ≡ Some (doing (LowersExpr (out-For turns.now).start ∷ LowersExpr (out-For turns.now).from ∷ LoopBegins turns.now ∷ []) (body_shown body.old))) }
{
    begin_loop(body, alloc, turns)?;
    Ok(true)
}

/// A value of the struct of this name.
pub(crate) fn first_struct<'a>(
    body: &mut OpenBody<'a>,
    alloc: Global,
    text: &'a Module,
    name: &'a Name,
    fields: &'a [FieldValue],
    rest: &'a Option<Boxed<Expr>>,
) -> Result<bool, AllocError>
    ensures { IfOk result (λ is. (table : List CoreInstance) → where_true is (Some (body_shown body.new)) ≡ struct_named_begins (instance_env_of text.now table) name.now fields.now rest.now (body_shown body.old)) }
{
    let ty = struct_named(alloc, text, name)?;
    begin_struct(body, alloc, text, ty, fields, rest)
}
