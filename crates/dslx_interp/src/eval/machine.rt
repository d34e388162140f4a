ghost use Rattle.std.specs.Prelude.{◌≡◌, ◌∷◌, Some, None, IfOk, MatchBool};
ghost use Rattle.dslx_interp.specs.Eval.Inner.Machine.{shown, stepped};
ghost use Rattle.dslx_interp.specs.Eval.Inner.Tasks.{EachValueDen, plain_task};

use crate::eval::operation::operate;
use crate::eval::task::Task;
use base::stacks::Stack;
use dslx_core::{CoreExpr, Function};
use std::alloc::{AllocError, Global};
use xb_value::Value;

/// Where the machine stands.
#[derive(Drop)]
pub(crate) struct Machine<'a> {
    pub(crate) functions: &'a [Function],
    /// What is still to be done, the next task on the top.
    pub(crate) tasks: Stack<Task<'a>>,
    /// The values that were found and aren't used yet.
    pub(crate) values: Stack<Value>,
    /// What is bound in the body that is open.
    pub(crate) bound: Vec<Value>,
    /// How many functions that body may call: those before its own.
    pub(crate) before: u64,
}

impl<'a> Machine<'a> {
    /// Does a task, and says whether it can be done: where it can't, there is no value.
    pub(crate) fn step(&mut self, alloc: Global, task: Task<'a>) -> Result<bool, AllocError>
        ensures { IfOk result (λ fits. MatchBool fits (stepped (plain_task task.entry) (shown self.old) ≡ Some (shown self.new)) (stepped (plain_task task.entry) (shown self.old) ≡ None)) }
    {
        match task {
            Task::Eval(expr) => self.eval(alloc, expr),
            Task::EvalEach(exprs) => self.eval_each(exprs),
            Task::Operate(operation) => operate(alloc, operation, &mut self.values),
            Task::Bind(shape, body) => self.bind(alloc, shape, body),
            Task::Choose(yes, no) => self.choose(yes, no),
            Task::Select(arms) => self.select(alloc, arms),
            Task::Turn(count, index, index_shape, shape, body) => {
                self.turn(alloc, count, index, index_shape, shape, body)
            }
            Task::Call(number, count) => self.call(number, count),
            Task::Forget(count) => {
                self.bound.truncate(count);
                Ok(true)
            }
            Task::Return(bound, before) => {
                self.bound = bound;
                self.before = before;
                Ok(true)
            }
        }
    }

    /// Goes on with the first of several expressions.
    fn eval_each(&mut self, exprs: &'a [CoreExpr]) -> Result<bool, AllocError>
        ensures { IfOk result (λ fits. MatchBool fits
            (stepped (EachValueDen exprs.now) (shown self.old) ≡ Some (shown self.new)) (stepped (EachValueDen exprs.now) (shown self.old) ≡ None)) }
    {
        match exprs {
            [] => Ok(true),
            [first, rest @ ..] => {
                self.tasks.push(Task::EvalEach(rest))?;
                self.tasks.push(Task::Eval(first))?;
                Ok(true)
            }
        }
    }
}
