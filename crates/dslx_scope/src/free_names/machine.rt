ghost use Rattle.std.specs.Prelude.{◌≡◌, ◌∷◌, [], OnOk};
ghost use Rattle.dslx_scope.specs.FreeNames.Plain.{shown, plain_task};
ghost use Rattle.dslx_scope.specs.FreeNames.Steps.{visiting, meets_name, binding_name, keeping_names, keeps_bound, type_visited, expr_visited};

use crate::free_names::task::Task;
use base::stacks::Stack;
use base::texts::Name;
use dslx_meaning::names::BoundNames;
use dslx_tree::{Expr, TypeExpr};
use std::alloc::AllocError;
use xb_value::Boxed;

/// Where the machine stands.
#[derive(Drop)]
pub(crate) struct Machine<'a> {
    /// What is still to be visited, the next on the top.
    pub(crate) tasks: Stack<Task<'a>>,
    /// What is bound there.
    pub(crate) bound: BoundNames<'a>,
    /// The free names so far.
    pub(crate) found: Vec<&'a Name>,
}

impl<'a> Machine<'a> {
    /// This is to be visited next.
    pub(crate) fn first(&mut self, task: Task<'a>) -> Result<(), AllocError>
        ensures { OnOk result (shown self.new ≡ visiting (plain_task task.entry ∷ []) (shown self.old)) }
    {
        self.tasks.push(task)?;
        Ok(())
    }

    /// These are to be visited next.
    pub(crate) fn both(&mut self, first: Task<'a>, second: Task<'a>) -> Result<(), AllocError>
        ensures { OnOk result (shown self.new ≡ visiting (plain_task first.entry ∷ plain_task second.entry ∷ []) (shown self.old)) }
    {
        self.tasks.push(second)?;
        self.tasks.push(first)?;
        Ok(())
    }

    /// These are to be visited next.
    pub(crate) fn three(
        &mut self,
        first: Task<'a>,
        second: Task<'a>,
        third: Task<'a>,
    ) -> Result<(), AllocError>
        ensures { OnOk result (shown self.new ≡ visiting (plain_task first.entry ∷ plain_task second.entry ∷ plain_task third.entry ∷ []) (shown self.old)) }
    {
        self.tasks.push(third)?;
        self.tasks.push(second)?;
        self.tasks.push(first)?;
        Ok(())
    }

    /// The type is to be visited next, if one is written.
    pub(crate) fn type_first(&mut self, ty: &'a Option<Boxed<TypeExpr>>) -> Result<(), AllocError>
        ensures { OnOk result (shown self.new ≡ type_visited ty.now (shown self.old)) }
    {
        match ty {
            Some(ty) => self.first(Task::Type(ty.get())),
            None => Ok(()),
        }
    }

    /// The expression is to be visited next, if there is one.
    pub(crate) fn expr_first(&mut self, expr: &'a Option<Boxed<Expr>>) -> Result<(), AllocError>
        ensures { OnOk result (shown self.new ≡ expr_visited expr.now (shown self.old)) }
    {
        match expr {
            Some(expr) => self.first(Task::Expr(expr.get())),
            None => Ok(()),
        }
    }

    /// A name that stands for a value is free where it isn't bound.
    pub(crate) fn meet(&mut self, name: &'a Name) -> Result<(), AllocError>
        ensures { OnOk result (shown self.new ≡ meets_name name.now (shown self.old)) }
    {
        if !self.bound.has(name) {
            self.found.push(name)?;
        }
        Ok(())
    }

    /// Binds a name.
    pub(crate) fn bind(&mut self, name: &'a Name) -> Result<(), AllocError>
        ensures { OnOk result (shown self.new ≡ binding_name name.now (shown self.old)) }
    {
        self.bound.bind(name)
    }

    /// Forgets all names but the first so many.
    pub(crate) fn keep_first(&mut self, count: usize) -> Result<(), AllocError>
        ensures { OnOk result (shown self.new ≡ keeping_names count (shown self.old)) }
    {
        self.bound.keep_first(count);
        Ok(())
    }

    /// Forgets later what is bound from here on.
    pub(crate) fn keep(&self) -> Task<'a>
        ensures { plain_task result ≡ keeps_bound (shown self.now) }
    {
        Task::KeepFirst(self.bound.len())
    }
}
