//! The machine run to its end.

ghost use Rattle.std.specs.Prelude.{◌≡◌, IfOk, Some, slice_get};
ghost use Rattle.dslx_meaning.specs.Lists.{and_then};
ghost use Rattle.dslx_interp.specs.Eval.Found.{plain_found};
ghost use Rattle.dslx_core.specs.CoreValues.{core_value};
ghost use Rattle.dslx_interp.specs.Eval.Inner.Direct.{calls_of};

use crate::eval::machine::Machine;
use crate::eval::task::Task;
use crate::eval::value::Found;
use base::stacks::Stack;
use dslx_core::{CoreExpr, Function};
use std::alloc::{AllocError, Global};
use xb_value::Value;

/// The value of an expression over these bound values, unless it has none. `functions` are those that it may call, each of which
/// calls only those before it.
///
/// It takes a step for each expression that it meets, in each turn of a loop anew, and memory for what is open at once. Past
/// 2^64 - 1 steps, which no checked text needs, it gives up as for want of memory.
pub(crate) fn machine_value<'a>(
    alloc: Global,
    functions: &'a [Function],
    expr: &'a CoreExpr,
    bound: Vec<Value>,
) -> Result<Option<Value>, AllocError>
    ensures { IfOk result (λ v. v ≡ core_value expr.now (calls_of functions.now) bound.items) }
{
    match found_in_steps(alloc, functions, expr, bound)? {
        Some(found) => Ok(Some(found.value)),
        None => Ok(None),
    }
}

/// The value, and what is bound.
fn found_in_steps<'a>(
    alloc: Global,
    functions: &'a [Function],
    expr: &'a CoreExpr,
    bound: Vec<Value>,
) -> Result<Option<Found>, AllocError>
    ensures { IfOk result (λ o. plain_found o ≡ and_then (core_value expr.now (calls_of functions.now) bound.items) (λ v. Some (v, bound.items))) }
{
    let mut machine = Machine {
        functions,
        tasks: Stack::new(alloc),
        values: Stack::new(alloc),
        bound,
        before: functions.len() as u64,
    };
    machine.tasks.push(Task::Eval(expr))?;
    'steps: for _ in 0..u64::MAX {
        match machine.tasks.pop() {
            Some(task) => if !machine.step(alloc, task)? {
                return Ok(None);
            },
            None => return Ok(found_by(machine)),
        }
    }
    Err(AllocError)
}

/// The value on the top of a machine's stack, with what is bound.
fn found_by(machine: Machine) -> Option<Found>
    ensures { plain_found result ≡ and_then (slice_get machine.entry.values 0) (λ v. Some (v, machine.entry.bound.items)) }
{
    let Machine {
        functions: _,
        tasks: _,
        mut values,
        bound,
        before: _,
    } = machine;
    match values.pop() {
        Some(value) => Some(Found { value, bound }),
        None => None,
    }
}
