//! Several values, one after another.

ghost use Rattle.std.specs.Prelude.{◌≡◌, ◌∷◌, ◌++◌, [], OnOk, IfOk};
ghost use Rattle.dslx_meaning.specs.declared.ty.DslxType.{out-DslxType};
ghost use Rattle.dslx_meaning.specs.Names.ConstMachine.Lists.{made_of, gathers, fills};
ghost use Rattle.dslx_meaning.specs.Names.ConstMachine.States.{doing};
ghost use Rattle.dslx_meaning.specs.Names.ConstMachine.Steps.{stepped};
ghost use Rattle.dslx_meaning.specs.Names.ConstMachine.Tasks.{FindsElements, Gathers};
ghost use Rattle.dslx_const.specs.Lists.Inner.Elements.{begins_by, element_by, number_by};
ghost use Rattle.dslx_const_tasks.specs.Plain.{shown, plain_list, plain_list_task};

use crate::lists::call::{call_named, gather_next_number};
use crate::lists::field::{begin_fields, gather_next_field, take_rest};
use dslx_const_tasks::items::{number_of, untyped_of};
use dslx_const_tasks::{ListMaker, ListTask, Machine};
use dslx_meaning::{DslxType, DslxValue, UntypedLiteral};
use dslx_tree::Expr;
use dslx_values::filled;
use std::alloc::{AllocError, Global};
use xb_value::Seq;

/// Does a task of several values.
pub fn step_list<'a>(
    machine: &mut Machine<'a>,
    alloc: Global,
    task: ListTask<'a>,
) -> Result<(), AllocError>
    ensures { OnOk result (shown machine.new ≡ stepped (plain_list_task task.entry) (shown machine.old)) }
{
    match task {
        ListTask::Elements(elements, dots) => begin_elements(machine, alloc, elements, dots),
        ListTask::Gather(values, rest, maker) => gather_next(machine, alloc, values, rest, maker),
        ListTask::GatherParametricArgs(values, rest, name, operands) => {
            gather_next_number(machine, alloc, values, rest, name, operands)
        }
        ListTask::FindFields(fields, rest) => begin_fields(machine, alloc, fields, rest),
        ListTask::TakeRest(name, names, fields) => take_rest(machine, alloc, name, names, fields),
        ListTask::GatherFields(fields) => gather_next_field(machine, alloc, fields),
    }
}

/// Goes on with the expressions that are left, behind these values.
pub fn gather<'a>(
    machine: &mut Machine<'a>,
    alloc: Global,
    values: Vec<DslxValue>,
    exprs: &'a [Expr],
    maker: ListMaker<'a>,
) -> Result<(), AllocError>
    ensures { OnOk result (shown machine.new ≡ gathers values.items exprs.now (plain_list maker.entry) (shown machine.old)) }
{
    match exprs {
        [] => make_list(machine, alloc, maker, values),
        [first, rest @ ..] => begin_next(machine, alloc, values, first, rest, maker),
    }
}

/// Finds a value behind others.
#[tactic(auto, using(crate::proofs::OnLists::Elements::begins_next))]
fn begin_next<'a>(
    machine: &mut Machine<'a>,
    alloc: Global,
    values: Vec<DslxValue>,
    first: &'a Expr,
    rest: &'a [Expr],
    maker: ListMaker<'a>,
) -> Result<(), AllocError>
    ensures { OnOk result (shown machine.new ≡ gathers values.items (first.now ∷ rest.now) (plain_list maker.entry) (shown machine.old)) }
{
    let number = element_number(&maker, first)?;
    begin_by(
        machine,
        alloc,
        number,
        first,
        ListTask::Gather(values, rest, maker),
    )
}

/// Finds a value, or has it at once, and then does a task.
fn begin_by<'a>(
    machine: &mut Machine<'a>,
    alloc: Global,
    number: Option<Option<DslxValue>>,
    expr: &'a Expr,
    then: ListTask<'a>,
) -> Result<(), AllocError>
    ensures { OnOk result (shown machine.new ≡ begins_by number expr.now (doing (plain_list_task then.entry ∷ []) (shown machine.old))) }
{
    match number {
        Some(value) => {
            machine.first_list(alloc, then)?;
            machine.give(value)
        }
        None => machine.eval_then_list(alloc, expr, then),
    }
}

fn gather_next<'a>(
    machine: &mut Machine<'a>,
    alloc: Global,
    values: Vec<DslxValue>,
    rest: &'a [Expr],
    maker: ListMaker<'a>,
) -> Result<(), AllocError>
    ensures { OnOk result (shown machine.new ≡ stepped (Gathers values.items rest.now (plain_list maker.entry)) (shown machine.old)) }
{
    match machine.take_value() {
        Some(value) => gather(machine, alloc, put_behind(values, value)?, rest, maker),
        None => Ok(()),
    }
}

/// What is made of all values of a list.
fn make_list<'a>(
    machine: &mut Machine<'a>,
    alloc: Global,
    maker: ListMaker<'a>,
    values: Vec<DslxValue>,
) -> Result<(), AllocError>
    ensures { OnOk result (shown machine.new ≡ made_of (plain_list maker.entry) values.items (shown machine.old)) }
{
    match maker {
        ListMaker::Tuple => machine.give(Some(DslxValue::Tuple(Seq::from_vec(values)))),
        ListMaker::Array => machine.give(Some(DslxValue::Array(Seq::from_vec(values)))),
        ListMaker::Fill(_, count, dots) => {
            let array = filled(alloc, dots, count, Seq::from_vec(values))?;
            machine.give(array)
        }
        ListMaker::Call(name, parametric_args) => call_named(
            machine,
            alloc,
            name,
            parametric_args,
            values,
        ),
    }
}

fn begin_elements<'a>(
    machine: &mut Machine<'a>,
    alloc: Global,
    elements: &'a [Expr],
    dots: bool,
) -> Result<(), AllocError>
    ensures { OnOk result (shown machine.new ≡ stepped (FindsElements elements.now dots) (shown machine.old)) }
{
    match machine.take_type() {
        Some(ty) => fill(machine, alloc, ty, elements, dots),
        None => Ok(()),
    }
}

/// Goes on with the elements of an array of a type.
fn fill<'a>(
    machine: &mut Machine<'a>,
    alloc: Global,
    ty: DslxType,
    elements: &'a [Expr],
    dots: bool,
) -> Result<(), AllocError>
    ensures { OnOk result (shown machine.new ≡ fills (out-DslxType ty) elements.now dots (shown machine.old)) }
{
    match ty {
        DslxType::Array(element, count) => gather(
            machine,
            alloc,
            Vec::new(alloc),
            elements,
            ListMaker::Fill(element.into_inner(), count, dots),
        ),
        _ => machine.give(None),
    }
}

/// The values, and one more behind them.
pub(crate) fn put_behind(
    mut values: Vec<DslxValue>,
    value: DslxValue,
) -> Result<Vec<DslxValue>, AllocError>
    ensures { IfOk result (λ more. more.items ≡ values.items ++ value ∷ []) }
{
    values.push(value)?;
    Ok(values)
}

/// The element that a number without a type is, in an array of a type.
fn element_number(maker: &ListMaker, expr: &Expr) -> Result<Option<Option<DslxValue>>, AllocError>
    ensures { IfOk result (λ o. o ≡ element_by (plain_list maker.now) expr.now) }
{
    match maker {
        ListMaker::Fill(ty, _, _) => number_in(ty, untyped_of(expr)),
        _ => Ok(None),
    }
}

/// The number of a type.
fn number_in(
    ty: &DslxType,
    number: Option<UntypedLiteral>,
) -> Result<Option<Option<DslxValue>>, AllocError>
    ensures { IfOk result (λ o. o ≡ number_by ty.now number) }
{
    match number {
        Some(number) => Ok(Some(number_of(ty, number)?)),
        None => Ok(None),
    }
}
