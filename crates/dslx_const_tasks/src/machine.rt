ghost use Rattle.std.specs.Prelude.{◌≡◌, ◌∷◌, [], OnOk};
ghost use Rattle.dslx_meaning.specs.Names.ConstMachine.Kept.{is_hidden};
ghost use Rattle.dslx_meaning.specs.Names.ConstMachine.States.{value_in, type_in, count_in_finding, finds_value, finds_type, finds_count, without_finding, doing};
ghost use Rattle.dslx_meaning.specs.Names.ConstMachine.Tasks.{ValueDen, FindsType, CountsBound, CountsSize};
ghost use Rattle.dslx_const_tasks.specs.Plain.{shown, plain_task, plain_value_task, plain_list_task, plain_choice_task, plain_type_task, plain_call_task};

use crate::kept::Kept;
use crate::task::{CallTask, ChoiceTask, Found, ListTask, Task, TypeTask, ValueTask};
use base::stacks::Stack;
use base::texts::Name;
use dslx_meaning::names::Scope;
use dslx_meaning::{DslxType, DslxValue};
use dslx_tree::{Expr, Module, TypeExpr};
use std::alloc::{AllocError, Global};

/// Where the machine stands.
#[derive(Drop)]
pub struct Machine<'a> {
    pub text: &'a Module,
    /// The values of constants and members, where they are kept: then their texts aren't evaluated, and what is hidden denotes nothing.
    pub kept: Option<&'a Kept<'a>>,
    /// What is still to be done, the next task on the top.
    pub tasks: Stack<Task<'a>>,
    pub found: Found,
    /// What is bound where the machine is.
    pub bound: Scope<'a>,
    /// How many items a chain of uses may still go through.
    pub left: u64,
}

impl<'a> Machine<'a> {
    /// Whether a name is hidden: values are kept, and the item of that name is hidden there.
    pub fn hides(&self, name: &Name) -> bool
        ensures { result ≡ is_hidden (shown self.now).kept name.now }
    {
        match self.kept {
            Some(kept) => kept.hides(name),
            None => false,
        }
    }

    /// Takes what was found, if it is a value.
    pub fn take_value(&mut self) -> Option<DslxValue>
        ensures value { result ≡ value_in (shown self.old).found }
        ensures rest { shown self.new ≡ without_finding (shown self.old) }
    {
        match std::mem::replace(&mut self.found, Found::Value(None)) {
            Found::Value(value) => value,
            _ => None,
        }
    }

    /// Takes what was found, if it is a type.
    pub fn take_type(&mut self) -> Option<DslxType>
        ensures value { result ≡ type_in (shown self.old).found }
        ensures rest { shown self.new ≡ without_finding (shown self.old) }
    {
        match std::mem::replace(&mut self.found, Found::Value(None)) {
            Found::Type(ty) => ty,
            _ => None,
        }
    }

    /// Takes what was found, if it is a size or a bound.
    pub fn take_count(&mut self) -> Option<u128>
        ensures value { result ≡ count_in_finding (shown self.old).found }
        ensures rest { shown self.new ≡ without_finding (shown self.old) }
    {
        match std::mem::replace(&mut self.found, Found::Value(None)) {
            Found::Count(count) => count,
            _ => None,
        }
    }

    /// This is what is found.
    pub fn give(&mut self, value: Option<DslxValue>) -> Result<(), AllocError>
        ensures { OnOk result (shown self.new ≡ finds_value value (shown self.old)) }
    {
        self.found = Found::Value(value);
        Ok(())
    }

    /// This is the type that is found.
    pub fn give_type(&mut self, ty: Option<DslxType>) -> Result<(), AllocError>
        ensures { OnOk result (shown self.new ≡ finds_type ty (shown self.old)) }
    {
        self.found = Found::Type(ty);
        Ok(())
    }

    /// This is the size or the bound that is found.
    pub fn give_count(&mut self, count: Option<u128>) -> Result<(), AllocError>
        ensures { OnOk result (shown self.new ≡ finds_count count (shown self.old)) }
    {
        self.found = Found::Count(count);
        Ok(())
    }

    /// This is to be done next.
    pub fn first(&mut self, task: Task<'a>) -> Result<(), AllocError>
        ensures { OnOk result (shown self.new ≡ doing (plain_task task.entry ∷ []) (shown self.old)) }
    {
        self.tasks.push(task)?;
        Ok(())
    }

    /// This of a block or an operation is to be done next.
    pub fn first_value(&mut self, alloc: Global, task: ValueTask<'a>) -> Result<(), AllocError>
        ensures { OnOk result (shown self.new ≡ doing (plain_value_task task.entry ∷ []) (shown self.old)) }
    {
        self.first(Task::value(alloc, task)?)
    }

    /// This of several values is to be done next.
    pub fn first_list(&mut self, alloc: Global, task: ListTask<'a>) -> Result<(), AllocError>
        ensures { OnOk result (shown self.new ≡ doing (plain_list_task task.entry ∷ []) (shown self.old)) }
    {
        self.first(Task::list(alloc, task)?)
    }

    /// This of a match or a loop is to be done next.
    pub fn first_choice(&mut self, alloc: Global, task: ChoiceTask<'a>) -> Result<(), AllocError>
        ensures { OnOk result (shown self.new ≡ doing (plain_choice_task task.entry ∷ []) (shown self.old)) }
    {
        self.first(Task::choice(alloc, task)?)
    }

    /// This of a type, a size or a bound is to be done next.
    pub fn first_type(&mut self, alloc: Global, task: TypeTask<'a>) -> Result<(), AllocError>
        ensures { OnOk result (shown self.new ≡ doing (plain_type_task task.entry ∷ []) (shown self.old)) }
    {
        self.first(Task::ty(alloc, task)?)
    }

    /// This of a call is to be done next.
    pub fn first_call(&mut self, alloc: Global, task: CallTask<'a>) -> Result<(), AllocError>
        ensures { OnOk result (shown self.new ≡ doing (plain_call_task task.entry ∷ []) (shown self.old)) }
    {
        self.first(Task::call(alloc, task)?)
    }

    /// An expression is to be found, and then this of a block or an operation to be done.
    pub fn eval_then_value(
        &mut self,
        alloc: Global,
        expr: &'a Expr,
        then: ValueTask<'a>,
    ) -> Result<(), AllocError>
        ensures { OnOk result (shown self.new ≡ doing (ValueDen expr.now ∷ plain_value_task then.entry ∷ []) (shown self.old)) }
    {
        self.first_value(alloc, then)?;
        self.first(Task::Eval(expr))
    }

    /// An expression is to be found, and then this of several values to be done.
    pub fn eval_then_list(
        &mut self,
        alloc: Global,
        expr: &'a Expr,
        then: ListTask<'a>,
    ) -> Result<(), AllocError>
        ensures { OnOk result (shown self.new ≡ doing (ValueDen expr.now ∷ plain_list_task then.entry ∷ []) (shown self.old)) }
    {
        self.first_list(alloc, then)?;
        self.first(Task::Eval(expr))
    }

    /// An expression is to be found, and then this of a match or a loop to be done.
    pub fn eval_then_choice(
        &mut self,
        alloc: Global,
        expr: &'a Expr,
        then: ChoiceTask<'a>,
    ) -> Result<(), AllocError>
        ensures { OnOk result (shown self.new ≡ doing (ValueDen expr.now ∷ plain_choice_task then.entry ∷ []) (shown self.old)) }
    {
        self.first_choice(alloc, then)?;
        self.first(Task::Eval(expr))
    }

    /// An expression is to be found, and then this of a type, a size or a bound to be done.
    pub fn eval_then_type(
        &mut self,
        alloc: Global,
        expr: &'a Expr,
        then: TypeTask<'a>,
    ) -> Result<(), AllocError>
        ensures { OnOk result (shown self.new ≡ doing (ValueDen expr.now ∷ plain_type_task then.entry ∷ []) (shown self.old)) }
    {
        self.first_type(alloc, then)?;
        self.first(Task::Eval(expr))
    }

    /// An expression is to be found, and then this of a call to be done.
    pub fn eval_then_call(
        &mut self,
        alloc: Global,
        expr: &'a Expr,
        then: CallTask<'a>,
    ) -> Result<(), AllocError>
        ensures { OnOk result (shown self.new ≡ doing (ValueDen expr.now ∷ plain_call_task then.entry ∷ []) (shown self.old)) }
    {
        self.first_call(alloc, then)?;
        self.first(Task::Eval(expr))
    }

    /// A type is to be found, and then this of a block or an operation to be done.
    pub fn type_then_value(
        &mut self,
        alloc: Global,
        ty: &'a TypeExpr,
        then: ValueTask<'a>,
    ) -> Result<(), AllocError>
        ensures { OnOk result (shown self.new ≡ doing (FindsType ty.now ∷ plain_value_task then.entry ∷ []) (shown self.old)) }
    {
        self.first_value(alloc, then)?;
        self.first_type(alloc, TypeTask::Find(ty))
    }

    /// A type is to be found, and then this of several values to be done.
    pub fn type_then_list(
        &mut self,
        alloc: Global,
        ty: &'a TypeExpr,
        then: ListTask<'a>,
    ) -> Result<(), AllocError>
        ensures { OnOk result (shown self.new ≡ doing (FindsType ty.now ∷ plain_list_task then.entry ∷ []) (shown self.old)) }
    {
        self.first_list(alloc, then)?;
        self.first_type(alloc, TypeTask::Find(ty))
    }

    /// A type is to be found, and then this of a type, a size or a bound to be done.
    pub fn type_then_type(
        &mut self,
        alloc: Global,
        ty: &'a TypeExpr,
        then: TypeTask<'a>,
    ) -> Result<(), AllocError>
        ensures { OnOk result (shown self.new ≡ doing (FindsType ty.now ∷ plain_type_task then.entry ∷ []) (shown self.old)) }
    {
        self.first_type(alloc, then)?;
        self.first_type(alloc, TypeTask::Find(ty))
    }

    /// A bound is to be found, and then this of an operation to be done.
    pub fn bound_then_value(
        &mut self,
        alloc: Global,
        bound: &'a Expr,
        then: ValueTask<'a>,
    ) -> Result<(), AllocError>
        ensures { OnOk result (shown self.new ≡ doing (CountsBound bound.now ∷ plain_value_task then.entry ∷ []) (shown self.old)) }
    {
        self.first_value(alloc, then)?;
        self.first_type(alloc, TypeTask::CountBound(bound))
    }

    /// A size is to be found, and then this of a type to be done.
    pub fn size_then_type(
        &mut self,
        alloc: Global,
        size: &'a Expr,
        then: TypeTask<'a>,
    ) -> Result<(), AllocError>
        ensures { OnOk result (shown self.new ≡ doing (CountsSize size.now ∷ plain_type_task then.entry ∷ []) (shown self.old)) }
    {
        self.first_type(alloc, then)?;
        self.first_type(alloc, TypeTask::CountSize(size))
    }
}
