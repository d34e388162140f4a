//! What the machine finds.

ghost use Rattle.std.specs.Prelude.{◌≡◌, [], None, Some, length, IfOk};
ghost use Rattle.dslx_meaning.specs.Names.ConstMachine.States.{count_in_finding, type_in, value_in};
ghost use Rattle.dslx_meaning.specs.Names.ConstMachine.Steps.{begins};
ghost use Rattle.dslx_meaning.specs.Names.ConstMachine.Tasks.{ValueFound};
ghost use Rattle.dslx_meaning.proofs.Lemmas.Names.ConstMachine.{comes_to};
ghost use Rattle.dslx_const_tasks.specs.Plain.{plain_found, plain_task, shown};
ghost use Rattle.dslx_const_tasks.specs.Values.{values_kept};

use crate::step::step;
use base::stacks::Stack;
use dslx_const_tasks::{Found, Kept, Machine, Task};
use dslx_meaning::names::Scope;
use dslx_meaning::{DslxType, DslxValue};
use dslx_tree::Module;
use std::alloc::{AllocError, Global};

/// The machine in a text where these names are bound, with nothing to do.
pub fn machine_in<'a>(alloc: Global, text: &'a Module, bound: Scope<'a>) -> Machine<'a>
    ensures { shown result ≡ record { text = text.now; kept = None; todo = []; found = ValueFound None; bound = bound.entry; left = length text.now.items } }
{
    Machine {
        text,
        kept: None,
        tasks: Stack::new(alloc),
        found: Found::Value(None),
        bound,
        left: text.items.len() as u64,
    }
}

/// The same, where the values of constants and members are kept.
pub fn machine_over<'a>(
    alloc: Global,
    text: &'a Module,
    kept: &'a Kept<'a>,
    bound: Scope<'a>,
) -> Machine<'a>
    ensures { shown result ≡ record { text = text.now; kept = Some (values_kept kept.now); todo = []; found = ValueFound None; bound = bound.entry; left = length text.now.items } }
{
    Machine {
        text,
        kept: Some(kept),
        tasks: Stack::new(alloc),
        found: Found::Value(None),
        bound,
        left: text.items.len() as u64,
    }
}

/// What is found when all that is to be done, and what comes of it, is done.
pub fn run<'a>(alloc: Global, mut machine: Machine<'a>) -> Result<Found, AllocError>
    ensures { IfOk result (λ found. plain_found found ≡ comes_to (shown machine.entry)) }
{
    'steps: for _ in 0..u64::MAX {
        match machine.tasks.take_off() {
            Some(task) => step(&mut machine, alloc, task)?,
            None => return Ok(machine.found),
        }
    }
    Err(AllocError)
}

/// What is found when the task and all that comes of it is done, in a text where these names are bound.
pub(crate) fn found_by<'a>(
    alloc: Global,
    text: &'a Module,
    bound: Scope<'a>,
    task: Task<'a>,
) -> Result<Found, AllocError>
    ensures { IfOk result (λ found. plain_found found ≡ comes_to (begins text.now bound.entry (plain_task task.entry))) }
{
    let mut machine = machine_in(alloc, text, bound);
    machine.first(task)?;
    run(alloc, machine)
}

/// The value that was found, if it is one.
pub fn value_found(found: Found) -> Option<DslxValue>
    ensures { result ≡ value_in (plain_found found) }
{
    match found {
        Found::Value(value) => value,
        _ => None,
    }
}

/// The type that was found, if it is one.
pub fn type_found(found: Found) -> Option<DslxType>
    ensures { result ≡ type_in (plain_found found) }
{
    match found {
        Found::Type(ty) => ty,
        _ => None,
    }
}

/// The size or the bound that was found, if it is one.
pub(crate) fn count_found(found: Found) -> Option<u128>
    ensures { result ≡ count_in_finding (plain_found found) }
{
    match found {
        Found::Count(count) => count,
        _ => None,
    }
}
