//! What is to be done for an expression.

ghost use Rattle.std.specs.Prelude.{◌≡◌, ◌∷◌, [], slice_get, Some, None, IfOk, IsTrue, MatchBool};
ghost use Rattle.dslx_core.specs.declared.expr.CoreExpr.{out-CoreExpr};
ghost use Rattle.dslx_interp.specs.Eval.Inner.Machine.{shown, todo_with, begun, put_in};
ghost use Rattle.dslx_interp.specs.Eval.Inner.Tasks.{ValueDen, EachValueDen, plain_task};

use crate::eval::machine::Machine;
use crate::eval::operation::{Operation, put};
use crate::eval::task::Task;
use crate::operate::value_at;
use dslx_core::CoreExpr;
use std::alloc::{AllocError, Global};
use xb_value::Value;

impl<'a> Machine<'a> {
    /// Plans an expression, and says whether it can have a value.
    pub(crate) fn eval(&mut self, alloc: Global, expr: &'a CoreExpr) -> Result<bool, AllocError>
        ensures { IfOk result (λ fits. MatchBool fits (begun (out-CoreExpr expr.now) (shown self.old) ≡ Some (shown self.new)) (begun (out-CoreExpr expr.now) (shown self.old) ≡ None)) }
    {
        match expr {
            CoreExpr::Literal(value) => self.put_copy(alloc, value),
            CoreExpr::Slot(number) => self.put_slot(alloc, *number),
            CoreExpr::Tuple(parts) => self.each(
                parts.as_slice(),
                Task::Operate(Operation::Tuple(parts.len())),
            ),
            CoreExpr::Array(elements) => self.each(
                elements.as_slice(),
                Task::Operate(Operation::Array(elements.len())),
            ),
            CoreExpr::Unary(op, expr) => self.one(expr.get(), Task::Operate(Operation::Unary(*op))),
            CoreExpr::Binary(op, left, right) => self.two(
                left.get(),
                right.get(),
                Task::Operate(Operation::Binary(*op)),
            ),
            CoreExpr::Cast(sign, width, expr) => self.one(
                expr.get(),
                Task::Operate(Operation::Cast(*sign, *width)),
            ),
            CoreExpr::Slice(expr, from, width) => self.one(
                expr.get(),
                Task::Operate(Operation::Slice(*from, *width)),
            ),
            CoreExpr::Part(expr, start, width) => self.two(
                expr.get(),
                start.get(),
                Task::Operate(Operation::Part(*width)),
            ),
            CoreExpr::Element(expr, number) => self.one(
                expr.get(),
                Task::Operate(Operation::Element(*number)),
            ),
            CoreExpr::Index(array, place) => self.two(
                array.get(),
                place.get(),
                Task::Operate(Operation::Index),
            ),
            CoreExpr::Update(array, place, new) => self.three(
                array.get(),
                place.get(),
                new.get(),
                Task::Operate(Operation::Update),
            ),
            CoreExpr::Bind(expr, shape, body) => self.one(
                expr.get(),
                Task::Bind(shape, body.get()),
            ),
            CoreExpr::Choose(test, yes, no) => self.one(
                test.get(),
                Task::Choose(yes.get(), no.get()),
            ),
            CoreExpr::Select(expr, arms) => self.one(expr.get(), Task::Select(arms.as_slice())),
            CoreExpr::Loop(count, from, index, shape, body, start) => {
                self.one(
                    start.get(),
                    Task::Turn(*count, *from, index, shape, body.get()),
                )
            }
            CoreExpr::Call(number, operands) => self.each(
                operands.as_slice(),
                Task::Call(*number, operands.len()),
            ),
        }
    }

    /// Puts a copy of a value on the top.
    fn put_copy(&mut self, alloc: Global, value: &Value) -> Result<bool, AllocError>
        ensures { IfOk result (λ fits. MatchBool fits (put_in (Some value.now) (shown self.old) ≡ Some (shown self.new)) (put_in (Some value.now) (shown self.old) ≡ None)) }
    {
        let copy = value.copy(alloc)?;
        put(&mut self.values, Some(copy))
    }

    /// Puts a copy of what is bound as this number on the top.
    fn put_slot(&mut self, alloc: Global, number: u64) -> Result<bool, AllocError>
        ensures { IfOk result (λ fits. MatchBool fits
            (put_in (slice_get self.old.bound.items number) (shown self.old) ≡ Some (shown self.new)) (put_in (slice_get self.old.bound.items number) (shown self.old) ≡ None)) }
    {
        let value = value_at(alloc, self.bound.as_slice(), number)?;
        put(&mut self.values, value)
    }

    /// An expression, and a task behind it.
    fn one(&mut self, expr: &'a CoreExpr, task: Task<'a>) -> Result<bool, AllocError>
        ensures done { IfOk result (λ fits. IsTrue fits) }
        ensures new { IfOk result (λ fits. shown self.new ≡ todo_with (ValueDen expr.now ∷ plain_task task.entry ∷ []) (shown self.old)) }
    {
        self.tasks.push(task)?;
        self.tasks.push(Task::Eval(expr))?;
        Ok(true)
    }

    /// Two expressions in order, and a task behind them.
    fn two(
        &mut self,
        first: &'a CoreExpr,
        second: &'a CoreExpr,
        task: Task<'a>,
    ) -> Result<bool, AllocError>
        ensures done { IfOk result (λ fits. IsTrue fits) }
        ensures new { IfOk result (λ fits. shown self.new ≡ todo_with (ValueDen first.now ∷ ValueDen second.now ∷ plain_task task.entry ∷ []) (shown self.old)) }
    {
        self.tasks.push(task)?;
        self.tasks.push(Task::Eval(second))?;
        self.tasks.push(Task::Eval(first))?;
        Ok(true)
    }

    /// Three expressions in order, and a task behind them.
    fn three(
        &mut self,
        first: &'a CoreExpr,
        second: &'a CoreExpr,
        third: &'a CoreExpr,
        task: Task<'a>,
    ) -> Result<bool, AllocError>
        ensures done { IfOk result (λ fits. IsTrue fits) }
        ensures new { IfOk result (λ fits. shown self.new ≡ todo_with (ValueDen first.now ∷ ValueDen second.now ∷ ValueDen third.now ∷ plain_task task.entry ∷ []) (shown self.old)) }
    {
        self.tasks.push(task)?;
        self.tasks.push(Task::Eval(third))?;
        self.tasks.push(Task::Eval(second))?;
        self.tasks.push(Task::Eval(first))?;
        Ok(true)
    }

    /// Any number of expressions in order, and a task behind them.
    fn each(&mut self, exprs: &'a [CoreExpr], task: Task<'a>) -> Result<bool, AllocError>
        ensures done { IfOk result (λ fits. IsTrue fits) }
        ensures new { IfOk result (λ fits. shown self.new ≡ todo_with (EachValueDen exprs.now ∷ plain_task task.entry ∷ []) (shown self.old)) }
    {
        self.tasks.push(task)?;
        self.tasks.push(Task::EvalEach(exprs))?;
        Ok(true)
    }
}
