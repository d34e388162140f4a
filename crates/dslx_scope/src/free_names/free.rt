ghost use Rattle.std.specs.Prelude.{◌≡◌, ℕ, List, [], map, IfOk};
ghost use Rattle.dslx_meaning.specs.Rules.Mentions.{free_names, mentioned_in_type, value_names};
ghost use Rattle.dslx_scope.specs.FreeNames.Plain.{plain_task};
ghost use Rattle.dslx_scope.specs.FreeNames.Found.{mentioned_by};

use crate::free_names::machine::Machine;
use crate::free_names::step::step;
use crate::free_names::task::Task;
use base::stacks::Stack;
use base::texts::Name;
use dslx_meaning::names::BoundNames;
use dslx_tree::{Expr, TypeExpr};
use std::alloc::{AllocError, Global};

/// The names that are free in an expression as values, as often as they stand there, in order.
///
/// It takes a step for each part of the expression, and a name is looked up among those that the expression binds around it. Past
/// 2^64 - 1 steps it gives up as for want of memory.
pub fn names_free_in<'a>(alloc: Global, expr: &'a Expr) -> Result<Vec<&'a Name>, AllocError>
    ensures { IfOk result (λ names. map {B = List ℕ} (λ name. name.now) names.items ≡ free_names expr.now) }
{
    names_from(alloc, Task::Expr(expr))
}

/// The same of a written type: of its sizes.
pub fn names_free_in_type<'a>(alloc: Global, ty: &'a TypeExpr) -> Result<Vec<&'a Name>, AllocError>
    ensures { IfOk result (λ names. map {B = List ℕ} (λ name. name.now) names.items ≡ value_names (mentioned_in_type ty.now [])) }
{
    names_from(alloc, Task::Type(ty))
}

/// The free names that come of a task where nothing is bound.
fn names_from<'a>(alloc: Global, task: Task<'a>) -> Result<Vec<&'a Name>, AllocError>
    ensures { IfOk result (λ names. map {B = List ℕ} (λ name. name.now) names.items ≡ value_names (mentioned_by (plain_task task.entry) [])) }
{
    let mut machine = Machine {
        tasks: Stack::new(alloc),
        bound: BoundNames::new(alloc),
        found: Vec::new(alloc),
    };
    machine.tasks.push(task)?;
    'steps: for _ in 0..u64::MAX {
        match machine.tasks.take_off() {
            Some(task) => step(&mut machine, task)?,
            None => return Ok(machine.found),
        }
    }
    Err(AllocError)
}
