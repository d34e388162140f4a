//! Calls of functions: parametrics, operands, and bodies.

ghost use Rattle.dslx_meaning.specs.Inference.{inferred_for as number_for};
ghost use Rattle.dslx_meaning.specs.Values.{type_of_value as the_type};
ghost use Rattle.std.specs.Prelude.{◌≡◌, ◌∷◌, ◌==◌, [], Some, OnOk, IfOk, map, length, nat_lt};
ghost use Rattle.dslx_meaning.specs.Names.ConstMachine.Items.{function_from, uses_function, at_function, call_fails, body_begins, operands_on, call_begins, default_begins, parametric_begins, parametrics_on, parametric_given};
ghost use Rattle.dslx_meaning.specs.Names.ConstMachine.States.{back_at, one_less};
ghost use Rattle.dslx_meaning.specs.Names.ConstMachine.Steps.{stepped};
ghost use Rattle.dslx_meaning.specs.Names.ConstMachine.Tasks.{GivesParametric, GivesOperands, FindsParametrics};
ghost use Rattle.dslx_values.specs.Inference.Inferences.{inferred};
ghost use Rattle.dslx_const.specs.Calls.Inner.Inferred.{inferred_past};
ghost use Rattle.dslx_const_tasks.specs.Plain.{shown, plain_call_task, plain_call};

use base::texts::Name;
use dslx_const_tasks::{Call, CallTask, Machine, ValueTask, in_order, one_left};
use dslx_meaning::names::{Binding, Scope, find_function};
use dslx_meaning::{DslxType, DslxValue, UntypedLiteral};
use dslx_tree::{Field, Function, Parametric};
use dslx_values::inference::{Inference, inferred_for, inferred_from};
use dslx_values::type_of_value;
use std::alloc::{AllocError, Global};
use xb_value::Seq;

/// Does a task of a call.
pub fn step_call<'a>(
    machine: &mut Machine<'a>,
    alloc: Global,
    task: CallTask<'a>,
) -> Result<(), AllocError>
    ensures { OnOk result (shown machine.new ≡ stepped (plain_call_task task.entry) (shown machine.old)) }
{
    match task {
        CallTask::FindParametrics(call, parametrics) => find_parametrics(
            machine,
            alloc,
            call,
            parametrics,
        ),
        CallTask::GiveParametric(call, parametric, rest) => {
            give_parametric(machine, alloc, call, parametric, rest)
        }
        CallTask::GiveOperands(call, arguments) => give_operands(machine, alloc, call, arguments),
        CallTask::Return(bound, left) => {
            go_back(machine, bound, left);
            Ok(())
        }
    }
}

/// Calls a function of the text.
pub fn use_function<'a>(
    machine: &mut Machine<'a>,
    alloc: Global,
    name: &Name,
    parametric_args: Vec<DslxValue>,
    operands: Vec<DslxValue>,
) -> Result<(), AllocError>
    ensures { OnOk result (shown machine.new ≡ uses_function name.now parametric_args.items operands.items (shown machine.old)) }
{
    if machine.hides(name) {
        machine.give(None)
    } else {
        go_to_function(machine, alloc, name, parametric_args, operands)
    }
}

fn go_to_function<'a>(
    machine: &mut Machine<'a>,
    alloc: Global,
    name: &Name,
    parametric_args: Vec<DslxValue>,
    operands: Vec<DslxValue>,
) -> Result<(), AllocError>
    ensures { OnOk result (shown machine.new ≡ function_from (one_less (shown machine.old).left) name.now parametric_args.items operands.items (shown machine.old)) }
{
    match one_left(machine.left) {
        Some(left) => match find_function(machine.text.items.as_slice(), name) {
            Some(function) => begin_call(machine, alloc, left, function, parametric_args, operands),
            None => machine.give(None),
        },
        None => machine.give(None),
    }
}

/// Puts aside what is bound where the call stands, and goes on with the parametrics.
fn begin_call<'a>(
    machine: &mut Machine<'a>,
    alloc: Global,
    left: u64,
    function: &'a Function,
    parametric_args: Vec<DslxValue>,
    operands: Vec<DslxValue>,
) -> Result<(), AllocError>
    ensures { OnOk result (shown machine.new ≡ at_function left (Some function.now) parametric_args.items operands.items (shown machine.old)) }
{
    let inferred = infer(alloc, function, parametric_args.len(), operands.as_slice())?;
    let given = in_order(alloc, Seq::from_vec(parametric_args))?;
    let operands = in_order(alloc, Seq::from_vec(operands))?;
    let call = Call {
        function,
        given,
        inferred,
        operands,
        bound: std::mem::replace(&mut machine.bound, Scope::new(alloc)),
        left: machine.left,
    };
    machine.left = left;
    machine.first_call(
        alloc,
        CallTask::FindParametrics(call, function.parametrics.as_slice()),
    )
}

/// Goes on with the first parametric that is left, which may be given.
fn find_parametrics<'a>(
    machine: &mut Machine<'a>,
    alloc: Global,
    mut call: Call<'a>,
    parametrics: &'a [Parametric],
) -> Result<(), AllocError>
    ensures { OnOk result (shown machine.new ≡ stepped (FindsParametrics (plain_call call.entry) parametrics.now) (shown machine.old)) }
{
    match call.given.take_off() {
        Some(value) => match parametrics {
            [] => fail_call(machine, call),
            [first, rest @ ..] => bind_parametric(machine, alloc, call, first, rest, value),
        },
        None => find_missing(machine, alloc, call, parametrics),
    }
}

/// Binds a parametric, and goes on with those behind it.
fn bind_parametric<'a>(
    machine: &mut Machine<'a>,
    alloc: Global,
    call: Call<'a>,
    parametric: &'a Parametric,
    rest: &'a [Parametric],
    value: DslxValue,
) -> Result<(), AllocError>
    ensures { OnOk result (shown machine.new ≡ parametric_given (Some value) (plain_call call.entry) parametric.now rest.now (shown machine.old)) }
{
    machine.bound.bind(Binding {
        name: &parametric.name.name,
        value,
    })?;
    machine.first_call(alloc, CallTask::FindParametrics(call, rest))
}

/// Goes on with the first parametric that isn't given, or with the operands.
fn find_missing<'a>(
    machine: &mut Machine<'a>,
    alloc: Global,
    call: Call<'a>,
    parametrics: &'a [Parametric],
) -> Result<(), AllocError>
    ensures { OnOk result (shown machine.new ≡ parametrics_on [] (plain_call call.entry) parametrics.now (shown machine.old)) }
{
    match parametrics {
        [] => begin_operands(machine, alloc, call),
        [first, rest @ ..] => begin_parametric(machine, alloc, call, first, rest),
    }
}

/// Finds a parametric: the number that the operands infer, or else its default.
fn begin_parametric<'a>(
    machine: &mut Machine<'a>,
    alloc: Global,
    call: Call<'a>,
    parametric: &'a Parametric,
    rest: &'a [Parametric],
) -> Result<(), AllocError>
    ensures { OnOk result (shown machine.new ≡ parametric_begins (number_for parametric.now.name.name (plain_call call.entry).inferred) (plain_call call.entry) parametric.now rest.now (shown machine.old)) }
{
    match inferred_for(&parametric.name.name, call.inferred.as_slice()) {
        Some(number) => {
            machine.first_call(alloc, CallTask::GiveParametric(call, parametric, rest))?;
            machine.type_then_value(
                alloc,
                &parametric.ty,
                ValueTask::Number(UntypedLiteral {
                    is_negative: false,
                    value: number,
                }),
            )
        }
        None => begin_default(machine, alloc, call, parametric, rest),
    }
}

fn begin_default<'a>(
    machine: &mut Machine<'a>,
    alloc: Global,
    call: Call<'a>,
    parametric: &'a Parametric,
    rest: &'a [Parametric],
) -> Result<(), AllocError>
    ensures { OnOk result (shown machine.new ≡ default_begins parametric.now.default (plain_call call.entry) parametric.now rest.now (shown machine.old)) }
{
    match &parametric.default {
        Some(expr) => machine.eval_then_call(
            alloc,
            expr,
            CallTask::GiveParametric(call, parametric, rest),
        ),
        None => fail_call(machine, call),
    }
}

fn give_parametric<'a>(
    machine: &mut Machine<'a>,
    alloc: Global,
    call: Call<'a>,
    parametric: &'a Parametric,
    rest: &'a [Parametric],
) -> Result<(), AllocError>
    ensures { OnOk result (shown machine.new ≡ stepped (GivesParametric (plain_call call.entry) parametric.now rest.now) (shown machine.old)) }
{
    match machine.take_value() {
        Some(value) => bind_parametric(machine, alloc, call, parametric, rest, value),
        None => fail_call(machine, call),
    }
}

/// Goes on with the operands, if the function takes so many.
fn begin_operands<'a>(
    machine: &mut Machine<'a>,
    alloc: Global,
    call: Call<'a>,
) -> Result<(), AllocError>
    ensures { OnOk result (shown machine.new ≡ call_begins (plain_call call.entry) (shown machine.old)) }
{
    if has_operands(&call) {
        let arguments = call.function.arguments.as_slice();
        machine.first_call(alloc, CallTask::GiveOperands(call, arguments))
    } else {
        fail_call(machine, call)
    }
}

fn give_operands<'a>(
    machine: &mut Machine<'a>,
    alloc: Global,
    mut call: Call<'a>,
    arguments: &'a [Field],
) -> Result<(), AllocError>
    ensures { OnOk result (shown machine.new ≡ stepped (GivesOperands (plain_call call.entry) arguments.now) (shown machine.old)) }
{
    match call.operands.take_off() {
        Some(value) => match arguments {
            [] => begin_body(machine, alloc, call),
            [first, rest @ ..] => bind_operand(machine, alloc, call, first, rest, value),
        },
        None => begin_body(machine, alloc, call),
    }
}

/// Binds an argument to an operand, and goes on with those behind it.
fn bind_operand<'a>(
    machine: &mut Machine<'a>,
    alloc: Global,
    call: Call<'a>,
    argument: &'a Field,
    rest: &'a [Field],
    value: DslxValue,
) -> Result<(), AllocError>
    ensures { OnOk result (shown machine.new ≡ operands_on (value ∷ call.entry.operands) (plain_call call.entry) (argument.now ∷ rest.now) (shown machine.old)) }
{
    machine.bound.bind(Binding {
        name: &argument.name.name,
        value,
    })?;
    machine.first_call(alloc, CallTask::GiveOperands(call, rest))
}

/// Goes on with the body, and then back to where the call stands.
fn begin_body<'a>(
    machine: &mut Machine<'a>,
    alloc: Global,
    call: Call<'a>,
) -> Result<(), AllocError>
    ensures { OnOk result (shown machine.new ≡ body_begins (plain_call call.entry) (shown machine.old)) }
{
    let body = &call.function.body;
    machine.first_call(alloc, CallTask::Return(call.bound, call.left))?;
    machine.first_value(alloc, ValueTask::Block(body))
}

/// The call has no value.
fn fail_call<'a>(machine: &mut Machine<'a>, call: Call<'a>) -> Result<(), AllocError>
    ensures { OnOk result (shown machine.new ≡ call_fails (plain_call call.entry) (shown machine.old)) }
{
    go_back(machine, call.bound, call.left);
    machine.give(None)
}

/// Back to what is bound elsewhere, and how long a chain of uses may be there.
fn go_back<'a>(machine: &mut Machine<'a>, bound: Scope<'a>, left: u64)
    ensures { shown machine.new ≡ back_at bound.entry left (shown machine.old) }
{
    let _inner = std::mem::replace(&mut machine.bound, bound);
    machine.left = left;
}

/// What operands infer, where not all parametrics are given.
fn infer<'a>(
    alloc: Global,
    function: &'a Function,
    given: usize,
    operands: &[DslxValue],
) -> Result<Vec<Inference<'a>>, AllocError>
    ensures { IfOk result (λ found. map inferred found.items ≡ inferred_past given function.now operands.now) }
{
    if is_short(function, given) {
        let types = types_of(alloc, operands)?;
        inferred_from(alloc, function.arguments.as_slice(), types.as_slice())
    } else {
        Ok(Vec::new(alloc))
    }
}

/// Whether a call has an operand for each argument.
fn has_operands(call: &Call) -> bool
    ensures { result ≡ (length call.now.operands == length call.now.function.now.arguments) }
{
    call.operands.len() == call.function.arguments.len()
}

/// Whether a function has more parametrics than are given.
fn is_short(function: &Function, given: usize) -> bool
    ensures { result ≡ nat_lt given (length function.now.parametrics) }
{
    given < function.parametrics.len()
}

/// The types of values.
fn types_of(alloc: Global, values: &[DslxValue]) -> Result<Vec<DslxType>, AllocError>
    ensures { IfOk result (λ types. types.items ≡ map the_type values.now) }
{
    let mut types = Vec::new(alloc);
    'values: for value in values {
        types.push(type_of_value(alloc, value)?)?;
    }
    Ok(types)
}
