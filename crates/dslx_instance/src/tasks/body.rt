ghost use Rattle.std.specs.Prelude.{◌≡◌, ◌∷◌, [], Some, IfOk, OnOk};
ghost use Rattle.dslx_meaning.specs.Lists.{where_true};
ghost use Rattle.dslx_core.specs.Machines.Machine.Bodies.{doing, gives as given_last, restored, restores, unnamed as with_one_unnamed, with_made};
ghost use Rattle.dslx_core.specs.Machines.Machine.Tasks.{LowersExpr};
ghost use Rattle.dslx_instance.specs.Tasks.Shown.{arms_task_shown, block_task_shown, body_shown, call_task_shown, loop_task_shown, parts_task_shown, task_shown};

use crate::tasks::task::{ArmsTask, BlockTask, CallTask, LoopTask, LowerTask, PartsTask};
use base::stacks::Stack;
use dslx_core::lowering::LoweredExpr;
use dslx_meaning::names::Binding;
use dslx_scope::locals::Locals;
use dslx_tree::Expr;
use std::alloc::{AllocError, Global};

/// What is lowered in one body.
#[derive(Drop)]
pub struct OpenBody<'a> {
    /// The parametrics, in order.
    pub given: Vec<Binding<'a>>,
    /// What is still to be done, the next task on the top.
    pub todo: Stack<LowerTask<'a>>,
    /// What was made so far, the last one on the top.
    pub made: Stack<LoweredExpr>,
    /// The names that are bound.
    pub locals: Locals,
    /// How many values are bound.
    pub count: u64,
}

impl<'a> OpenBody<'a> {
    /// This is to be done next.
    pub fn first(&mut self, task: LowerTask<'a>) -> Result<(), AllocError>
        ensures { OnOk result (body_shown self.new ≡ doing (task_shown task.entry ∷ []) (body_shown self.old)) }
    {
        self.todo.push(task)?;
        Ok(())
    }

    /// This of a block or an operation is to be done next.
    pub fn first_block(&mut self, alloc: Global, task: BlockTask<'a>) -> Result<(), AllocError>
        ensures { OnOk result (body_shown self.new ≡ doing (block_task_shown task.entry ∷ []) (body_shown self.old)) }
    {
        self.first(LowerTask::block(alloc, task)?)
    }

    /// This of several expressions is to be done next.
    pub fn first_parts(&mut self, alloc: Global, task: PartsTask<'a>) -> Result<(), AllocError>
        ensures { OnOk result (body_shown self.new ≡ doing (parts_task_shown task.entry ∷ []) (body_shown self.old)) }
    {
        self.first(LowerTask::parts(alloc, task)?)
    }

    /// This of a match is to be done next.
    pub fn first_arms(&mut self, alloc: Global, task: ArmsTask<'a>) -> Result<(), AllocError>
        ensures { OnOk result (body_shown self.new ≡ doing (arms_task_shown task.entry ∷ []) (body_shown self.old)) }
    {
        self.first(LowerTask::arms(alloc, task)?)
    }

    /// This of a loop is to be done next.
    pub fn first_loop(&mut self, alloc: Global, task: LoopTask<'a>) -> Result<(), AllocError>
        ensures { OnOk result (body_shown self.new ≡ doing (loop_task_shown task.entry ∷ []) (body_shown self.old)) }
    {
        self.first(LowerTask::turns(alloc, task)?)
    }

    /// This of a call is to be done next.
    pub fn first_call(&mut self, alloc: Global, task: CallTask) -> Result<(), AllocError>
        ensures { OnOk result (body_shown self.new ≡ doing (call_task_shown task ∷ []) (body_shown self.old)) }
    {
        self.first(LowerTask::call(alloc, task)?)
    }

    /// An expression is to be lowered, and then this of a block or an operation to be done.
    pub fn expr_then_block(
        &mut self,
        alloc: Global,
        expr: &'a Expr,
        then: BlockTask<'a>,
    ) -> Result<(), AllocError>
        ensures { OnOk result (body_shown self.new ≡ doing (LowersExpr expr.now ∷ block_task_shown then.entry ∷ []) (body_shown self.old)) }
    {
        self.first_block(alloc, then)?;
        self.first(LowerTask::Expr(expr))
    }

    /// Two expressions are to be lowered, and then this of a block or an operation to be done.
    pub fn both_then_block(
        &mut self,
        alloc: Global,
        left: &'a Expr,
        right: &'a Expr,
        then: BlockTask<'a>,
    ) -> Result<(), AllocError>
        ensures { OnOk result (body_shown self.new ≡ doing (LowersExpr left.now ∷ LowersExpr right.now ∷ block_task_shown then.entry ∷ []) (body_shown self.old)) }
    {
        self.expr_then_block(alloc, right, then)?;
        self.first(LowerTask::Expr(left))
    }

    /// This is made.
    pub fn give(&mut self, expr: LoweredExpr) -> Result<(), AllocError>
        ensures { OnOk result (body_shown self.new ≡ with_made (expr ∷ (body_shown self.old).made) (body_shown self.old)) }
    {
        self.made.push(expr)?;
        Ok(())
    }

    /// This is made, if there is anything; whether there is.
    pub fn give_if(&mut self, expr: Option<LoweredExpr>) -> Result<bool, AllocError>
        ensures { IfOk result (λ is. where_true is (Some (body_shown self.new)) ≡ given_last expr (body_shown self.old)) }
    {
        match expr {
            Some(expr) => {
                self.give(expr)?;
                Ok(true)
            }
            None => Ok(false),
        }
    }

    /// One more value is bound, to no name.
    pub fn bind_unnamed(&mut self) -> Result<(), AllocError>
        ensures { OnOk result (body_shown self.new ≡ with_one_unnamed (body_shown self.old)) }
    {
        match self.count.checked_add(1) {
            Some(count) => {
                self.count = count;
                Ok(())
            }
            None => Err(AllocError),
        }
    }

    /// What goes back to what is bound here.
    pub fn restores_here(&self) -> LowerTask<'a>
        ensures { task_shown result ≡ restores (body_shown self.now) }
    {
        LowerTask::Restore(self.locals.len(), self.count)
    }

    /// Back to so many names and values, the first ones.
    pub fn restore(&mut self, names: usize, count: u64)
        ensures { body_shown self.new ≡ restored names count (body_shown self.old) }
    {
        self.locals.keep(names);
        self.count = count;
    }
}
