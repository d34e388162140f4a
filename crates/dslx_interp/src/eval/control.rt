//! What is done where a value decides how it goes on.

ghost use Rattle.std.specs.Prelude.{◌≡◌, ◌∷◌, [], length, slice_get, Some, None, IfOk, IsTrue, MatchBool};
ghost use Rattle.xb_bits.specs.Word.{word};
ghost use Rattle.xb_bits.specs.Operations.{add as add_words};
ghost use Rattle.dslx_interp.specs.Eval.Inner.Machine.{shown, stepped, entered, selecting, tried, turned, called};
ghost use Rattle.dslx_interp.specs.Eval.Inner.Tasks.{Binds, Chooses, Selects, Turns, Calls};

use crate::eval::machine::Machine;
use crate::eval::task::Task;
use crate::operate::{condition, take_apart, take_first};
use dslx_core::{Arm, CoreExpr, Function, Shape};
use std::alloc::{AllocError, Global};
use xb_bits::{Bits, add, zext};
use xb_value::{Value, at};

impl<'a> Machine<'a> {
    /// Goes on with an expression, behind which only so many are bound.
    fn enter(&mut self, count: usize, body: &'a CoreExpr) -> Result<bool, AllocError>
        ensures done { IfOk result (λ fits. IsTrue fits) }
        ensures new { IfOk result (λ fits. shown self.new ≡ entered count body.now (shown self.old)) }
    {
        self.tasks.push(Task::Forget(count))?;
        self.tasks.push(Task::Eval(body))?;
        Ok(true)
    }

    pub(crate) fn bind(
        &mut self,
        alloc: Global,
        shape: &'a Shape,
        body: &'a CoreExpr,
    ) -> Result<bool, AllocError>
        ensures { IfOk result (λ fits. MatchBool fits
            (stepped (Binds shape.now body.now) (shown self.old) ≡ Some (shown self.new)) (stepped (Binds shape.now body.now) (shown self.old) ≡ None)) }
    {
        let count = self.bound.len();
        match self.values.pop() {
            Some(value) => if take_apart(alloc, shape, &value, &mut self.bound)? {
                self.enter(count, body)
            } else {
                Ok(false)
            },
            None => Ok(false),
        }
    }

    pub(crate) fn choose(&mut self, yes: &'a CoreExpr, no: &'a CoreExpr) -> Result<bool, AllocError>
        ensures { IfOk result (λ fits. MatchBool fits
            (stepped (Chooses yes.now no.now) (shown self.old) ≡ Some (shown self.new)) (stepped (Chooses yes.now no.now) (shown self.old) ≡ None)) }
    {
        let value = self.values.pop();
        match condition(&value) {
            Some(true) => {
                self.tasks.push(Task::Eval(yes))?;
                Ok(true)
            }
            Some(false) => {
                self.tasks.push(Task::Eval(no))?;
                Ok(true)
            }
            None => Ok(false),
        }
    }

    pub(crate) fn select(&mut self, alloc: Global, arms: &'a [Arm]) -> Result<bool, AllocError>
        ensures { IfOk result (λ fits. MatchBool fits
            (stepped (Selects arms.now) (shown self.old) ≡ Some (shown self.new)) (stepped (Selects arms.now) (shown self.old) ≡ None)) }
    {
        match self.values.pop() {
            Some(value) => match arms {
                [] => Ok(false),
                [first, rest @ ..] => self.try_arm(alloc, first, rest, value),
            },
            None => Ok(false),
        }
    }

    /// Goes on with an arm where it fits a value or is the last one, else with those behind it.
    fn try_arm(
        &mut self,
        alloc: Global,
        arm: &'a Arm,
        rest: &'a [Arm],
        value: Value,
    ) -> Result<bool, AllocError>
        ensures done { IfOk result (λ fits. IsTrue fits) }
        ensures new { IfOk result (λ fits. shown self.new ≡ tried arm.now rest.now value (shown self.old)) }
    {
        let count = self.bound.len();
        if take_first(alloc, arm.shapes.as_slice(), &value, &mut self.bound)? {
            return self.enter(count, &arm.value);
        }
        match rest {
            [] => self.enter(count, &arm.value),
            [_next, _others @ ..] => self.try_next(rest, value),
        }
    }

    /// Goes on with these arms.
    fn try_next(&mut self, arms: &'a [Arm], value: Value) -> Result<bool, AllocError>
        ensures done { IfOk result (λ fits. IsTrue fits) }
        ensures new { IfOk result (λ fits. shown self.new ≡ selecting arms.now value (shown self.old)) }
    {
        self.tasks.push(Task::Select(arms))?;
        self.values.push(value)?;
        Ok(true)
    }

    pub(crate) fn turn(
        &mut self,
        alloc: Global,
        count: u64,
        index: Bits,
        index_shape: &'a Shape,
        shape: &'a Shape,
        body: &'a CoreExpr,
    ) -> Result<bool, AllocError>
        ensures { IfOk result (λ fits. MatchBool fits
            (stepped (Turns count index index_shape.now shape.now body.now) (shown self.old) ≡ Some (shown self.new))
            (stepped (Turns count index index_shape.now shape.now body.now) (shown self.old) ≡ None)) }
    {
        match self.values.pop() {
            Some(value) => if count == 0 {
                self.values.push(value)?;
                Ok(true)
            } else {
                self.turn_once(alloc, count - 1, index, index_shape, shape, body, value)
            },
            None => Ok(false),
        }
    }

    /// Goes on with a turn, behind which so many are left.
    fn turn_once(
        &mut self,
        alloc: Global,
        left: u64,
        index: Bits,
        index_shape: &'a Shape,
        shape: &'a Shape,
        body: &'a CoreExpr,
        value: Value,
    ) -> Result<bool, AllocError>
        ensures { IfOk result (λ fits. MatchBool fits
            (turned left index index_shape.now shape.now body.now value (shown self.old) ≡ Some (shown self.new))
            (turned left index index_shape.now shape.now body.now value (shown self.old) ≡ None)) }
    {
        let count = self.bound.len();
        self.tasks.push(Task::Turn(left, next_index(index), index_shape, shape, body))?;
        if take_apart(alloc, index_shape, &Value::Bits(index), &mut self.bound)? {
            if take_apart(alloc, shape, &value, &mut self.bound)? {
                self.enter(count, body)
            } else {
                Ok(false)
            }
        } else {
            Ok(false)
        }
    }

    pub(crate) fn call(&mut self, number: u64, count: usize) -> Result<bool, AllocError>
        ensures { IfOk result (λ fits. MatchBool fits
            (stepped (Calls number count) (shown self.old) ≡ Some (shown self.new)) (stepped (Calls number count) (shown self.old) ≡ None)) }
    {
        let operands = self.values.take_top(count)?;
        if number < self.before {
            match at(self.functions, number as usize) {
                Some(function) => self.open_body(number, function, operands),
                None => Ok(false),
            }
        } else {
            Ok(false)
        }
    }

    /// Goes on with the body of a function, if it takes so many operands.
    fn open_body(
        &mut self,
        number: u64,
        function: &'a Function,
        operands: Vec<Value>,
    ) -> Result<bool, AllocError>
        ensures { IfOk result (λ fits. MatchBool fits
            (called (Some function.now) number operands.items (shown self.old) ≡ Some (shown self.new)) (called (Some function.now) number operands.items (shown self.old) ≡ None)) }
    {
        if operands.len() as u64 != function.arity {
            return Ok(false);
        }
        let callers = std::mem::replace(&mut self.bound, operands);
        self.tasks.push(Task::Return(callers, self.before))?;
        self.tasks.push(Task::Eval(&function.body))?;
        self.before = number;
        Ok(true)
    }
}

/// The index behind another one, which is 0 behind the last one.
fn next_index(index: Bits) -> Bits
    ensures { result ≡ add_words index (word index.width 1) }
{
    add(index, zext(Bits::new(1, 1), index.width()))
}
