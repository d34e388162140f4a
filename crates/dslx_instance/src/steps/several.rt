//! Expressions that are lowered one after another.

ghost use Rattle.std.specs.Prelude.{◌≡◌, ◌∷◌, [], Some, OnOk};
ghost use Rattle.dslx_tree.specs.declared.expr.For.{out-For};
ghost use Rattle.dslx_meaning.specs.Lists.{where_true};
ghost use Rattle.dslx_core.specs.declared.expr.Shape.{Bound as bound_shape};
ghost use Rattle.dslx_core.specs.Machines.Machine.Bodies.{doing, restores, unnamed};
ghost use Rattle.dslx_core.specs.Machines.Machine.Parts.{part_taken};
ghost use Rattle.dslx_core.specs.Machines.Machine.Tasks.{Gathers, LoopBegins, LowersArms, LowersBlock, LowersExpr, Makes, MakesBind, MakesChoice};
ghost use Rattle.dslx_instance.specs.Tasks.Shown.{body_shown, parts_shown};

use crate::tasks::{
    ArmsTask, BlockTask, LastMaker, LoopTask, LowerTask, OpenBody, PartsMaker, PartsTask,
};
use dslx_core::Shape;
use dslx_core::lowering::LoweredExpr;
use dslx_core_exprs::alike::equal_type;
use dslx_tree::{Arm, Block, Expr, For};
use std::alloc::{AllocError, Global};
use xb_value::Boxed;

/// A condition and both branches are to be lowered, and a choice to be made of them.
pub fn begin_choice<'a>(
    body: &mut OpenBody<'a>,
    alloc: Global,
    condition: &'a Expr,
    yes: &'a Block,
    no: &'a Expr,
) -> Result<(), AllocError>
    ensures { OnOk result (body_shown body.new ≡ doing (LowersExpr condition.now ∷ LowersBlock yes.now ∷ LowersExpr no.now ∷ Makes MakesChoice ∷ []) (body_shown body.old)) }
{
    body.expr_then_block(alloc, no, BlockTask::Make(LastMaker::Choice))?;
    body.first_block(alloc, BlockTask::Block(yes))?;
    body.first(LowerTask::Expr(condition))
}

/// The value of a match is to be lowered, and then its arms.
pub fn begin_match<'a>(
    body: &mut OpenBody<'a>,
    alloc: Global,
    value: &'a Expr,
    arms: &'a [Arm],
) -> Result<(), AllocError>
    ensures { OnOk result (body_shown body.new ≡ doing (LowersExpr value.now ∷ LowersArms arms.now ∷ []) (body_shown body.old)) }
{
    body.first_arms(alloc, ArmsTask::Arms(arms))?;
    body.first(LowerTask::Expr(value))
}

/// What a loop begins with and its first index are to be lowered, and then the loop.
pub fn begin_loop<'a>(
    body: &mut OpenBody<'a>,
    alloc: Global,
    turns: &'a For,
) -> Result<(), AllocError>
    ensures { OnOk result (body_shown body.new ≡ doing (LowersExpr (out-For turns.now).start ∷ LowersExpr (out-For turns.now).from ∷ LoopBegins turns.now ∷ []) (body_shown body.old)) }
{
    body.first_loop(alloc, LoopTask::Begin(turns))?;
    body.first(LowerTask::Expr(&turns.from))?;
    body.first(LowerTask::Expr(&turns.start))
}

/// The next of several expressions is to be lowered, and then those behind it.
pub fn begin_next<'a>(
    body: &mut OpenBody<'a>,
    alloc: Global,
    before: Vec<LoweredExpr>,
    next: &'a Expr,
    rest: &'a [Expr],
    maker: PartsMaker<'a>,
) -> Result<(), AllocError>
    ensures { OnOk result (body_shown body.new ≡ doing (LowersExpr next.now ∷ Gathers before.items rest.now (parts_shown maker.entry) ∷ []) (body_shown body.old)) }
{
    body.first_parts(alloc, PartsTask::Gather(before, rest, maker))?;
    body.first(LowerTask::Expr(next))
}

/// Whether a part is of the type that is wanted.
pub fn fits_part(maker: &PartsMaker, part: &LoweredExpr) -> bool
    ensures { where_true result (Some part.now) ≡ part_taken (parts_shown maker.now) part.now }
{
    match maker {
        PartsMaker::Fill(ty, _, _) => equal_type(ty, &part.ty),
        _ => true,
    }
}

/// This value is bound, to no name, for what is made next.
pub fn bind_unnamed<'a>(
    body: &mut OpenBody<'a>,
    alloc: Global,
    value: LoweredExpr,
) -> Result<(), AllocError>
    ensures { OnOk result (body_shown body.new ≡ unnamed (doing (MakesBind value bound_shape ∷ restores (body_shown body.old) ∷ []) (body_shown body.old))) }
{
    let back = body.restores_here();
    body.first(back)?;
    body.first(LowerTask::Bind(Boxed::new(alloc, value)?, Shape::Bound))?;
    body.bind_unnamed()
}
