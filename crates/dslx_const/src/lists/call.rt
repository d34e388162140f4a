//! Parametric arguments and operands of a call, and what is called.

ghost use Rattle.std.specs.Prelude.{◌≡◌, OnOk};
ghost use Rattle.dslx_meaning.specs.Callees.{kind_of_call};
ghost use Rattle.dslx_meaning.specs.Names.ConstMachine.Lists.{builtin_value, calls, gathers_parametric_args};
ghost use Rattle.dslx_meaning.specs.Names.ConstMachine.Steps.{stepped};
ghost use Rattle.dslx_meaning.specs.Names.ConstMachine.Tasks.{GathersParametricArgs};
ghost use Rattle.dslx_meaning.specs.Names.Called.{kind_of};
ghost use Rattle.dslx_const_tasks.specs.Plain.{shown};

use crate::calls::use_function;
use crate::lists::list::{gather, put_behind};
use base::texts::Name;
use dslx_const_tasks::{ListMaker, ListTask, Machine};
use dslx_meaning::DslxValue;
use dslx_meaning::names::{Callee, callee_of};
use dslx_tree::{Arg, Expr};
use dslx_values::operators::{
    all_ones, count_leading, count_trailing, parity, reversed, some_one, updated,
};
use std::alloc::{AllocError, Global};
use xb_value::Seq;

/// Goes on with the parametric arguments that are left, behind these values, and then with the operands.
pub fn gather_parametric_args<'a>(
    machine: &mut Machine<'a>,
    alloc: Global,
    values: Vec<DslxValue>,
    parametric_args: &'a [Arg],
    name: &'a Name,
    operands: &'a [Expr],
) -> Result<(), AllocError>
    ensures { OnOk result (shown machine.new ≡ gathers_parametric_args values.items parametric_args.now name.now operands.now (shown machine.old)) }
{
    match parametric_args {
        [] => gather(
            machine,
            alloc,
            Vec::new(alloc),
            operands,
            ListMaker::Call(name, values),
        ),
        [first, rest @ ..] => machine.eval_then_list(
            alloc,
            &first.value,
            ListTask::GatherParametricArgs(values, rest, name, operands),
        ),
    }
}

/// Puts the parametric argument that was found behind those before it, and goes on with the next.
pub(crate) fn gather_next_number<'a>(
    machine: &mut Machine<'a>,
    alloc: Global,
    values: Vec<DslxValue>,
    rest: &'a [Arg],
    name: &'a Name,
    operands: &'a [Expr],
) -> Result<(), AllocError>
    ensures { OnOk result (shown machine.new ≡ stepped (GathersParametricArgs values.items rest.now name.now operands.now) (shown machine.old)) }
{
    match machine.take_value() {
        Some(value) => {
            gather_parametric_args(
                machine,
                alloc,
                put_behind(values, value)?,
                rest,
                name,
                operands,
            )
        }
        None => Ok(()),
    }
}

/// Calls a function of the text, or has what a builtin gives.
pub(crate) fn call_named<'a>(
    machine: &mut Machine<'a>,
    alloc: Global,
    name: &'a Name,
    parametric_args: Vec<DslxValue>,
    operands: Vec<DslxValue>,
) -> Result<(), AllocError>
    ensures { OnOk result (shown machine.new ≡ calls (kind_of_call name.now) name.now parametric_args.items operands.items (shown machine.old)) }
{
    match callee_of(name) {
        Callee::Function => use_function(machine, alloc, name, parametric_args, operands),
        callee => machine.give(built_in(callee, operands)),
    }
}

/// What a builtin gives.
fn built_in(callee: Callee, operands: Vec<DslxValue>) -> Option<DslxValue>
    ensures { result ≡ builtin_value (kind_of callee) operands.items }
{
    match callee {
        Callee::Join => Some(DslxValue::Token),
        Callee::CountLeading => count_leading(operands.as_slice()),
        Callee::CountTrailing => count_trailing(operands.as_slice()),
        Callee::Reverse => reversed(operands.as_slice()),
        Callee::AllOnes => all_ones(operands.as_slice()),
        Callee::SomeOne => some_one(operands.as_slice()),
        Callee::Parity => parity(operands.as_slice()),
        Callee::Update => updated(Seq::from_vec(operands)),
        _ => None,
    }
}
