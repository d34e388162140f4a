//! Patterns, and what comes behind them.

ghost use Rattle.std.specs.Prelude.{◌≡◌, ◌∷◌, [], OnOk, map};
ghost use Rattle.dslx_meaning.specs.Names.ConstMachine.Patterns.{fails, uses_number, fits_if, fits_name, fits_parts, fits_one, goes_on, fits_first, fits_all};
ghost use Rattle.dslx_meaning.specs.Names.ConstMachine.Items.{uses_member, is_constant_within};
ghost use Rattle.dslx_meaning.specs.Names.ConstMachine.States.{doing};
ghost use Rattle.dslx_meaning.specs.Names.ConstMachine.Steps.{stepped};
ghost use Rattle.dslx_meaning.specs.Names.ConstMachine.Tasks.{Compares, Forgets};
ghost use Rattle.dslx_const_tasks.specs.Plain.{shown, plain_value_task, plain_waiting, plain_sequel};

use base::texts::Name;
use dslx_const_tasks::items::{is_constant, use_constant, use_member};
use dslx_const_tasks::{ChoiceTask, Fitting, Machine, Sequel, ValueTask, Waiting, in_order};
use dslx_meaning::names::{Binding, Scope};
use dslx_meaning::{DslxValue, UntypedLiteral};
use dslx_tree::{Number, Pattern, Shape};
use dslx_values::{bool_value, into_elements, same_value};
use std::alloc::{AllocError, Global};
use xb_value::{Boxed, Seq};

/// Finds a number, which has no value without a type.
pub fn use_number<'a>(
    machine: &mut Machine<'a>,
    alloc: Global,
    number: &'a Number,
) -> Result<(), AllocError>
    ensures { OnOk result (shown machine.new ≡ uses_number number.now (shown machine.old)) }
{
    match &number.ty {
        Some(ty) => machine.type_then_value(
            alloc,
            ty.get(),
            ValueTask::Number(UntypedLiteral {
                is_negative: number.is_negative,
                value: number.value,
            }),
        ),
        None => machine.give(None),
    }
}

/// A value is to fit a pattern, and then what waits.
pub fn fit_one<'a>(
    machine: &mut Machine<'a>,
    alloc: Global,
    pattern: &'a Pattern,
    value: DslxValue,
    fitting: Fitting<'a>,
) -> Result<(), AllocError>
    ensures { OnOk result (shown machine.new ≡ fits_one pattern.now value (map plain_waiting fitting.entry.work) fitting.entry.names (plain_sequel fitting.entry.next) (shown machine.old)) }
{
    match &pattern.shape {
        Shape::Wild => machine.first_choice(alloc, ChoiceTask::Fit(fitting)),
        Shape::Bool(holds) => {
            let fits = same_value(&value, &bool_value(*holds));
            fit_if(machine, alloc, fits, fitting)
        }
        Shape::Number(number) => fit_number(machine, alloc, number, value, fitting),
        Shape::Name(name) => fit_name(machine, alloc, name, value, fitting),
        Shape::Member(choice, member) => {
            fit_member(machine, alloc, &choice.name, &member.name, value, fitting)
        }
        Shape::Tuple(patterns) => fit_parts(
            machine,
            alloc,
            into_elements(value),
            patterns.as_slice(),
            fitting,
        ),
    }
}

/// A number is compared with.
fn fit_number<'a>(
    machine: &mut Machine<'a>,
    alloc: Global,
    number: &'a Number,
    value: DslxValue,
    fitting: Fitting<'a>,
) -> Result<(), AllocError>
    ensures { OnOk result (shown machine.new ≡ uses_number number.now (doing (Compares value (map plain_waiting fitting.entry.work) fitting.entry.names (plain_sequel fitting.entry.next) ∷ []) (shown machine.old))) }
{
    machine.first_choice(alloc, ChoiceTask::Compare(value, fitting))?;
    use_number(machine, alloc, number)
}

/// A member of an enum is compared with.
fn fit_member<'a>(
    machine: &mut Machine<'a>,
    alloc: Global,
    name: &Name,
    member: &Name,
    value: DslxValue,
    fitting: Fitting<'a>,
) -> Result<(), AllocError>
    ensures { OnOk result (shown machine.new ≡ uses_member name.now member.now (doing (Compares value (map plain_waiting fitting.entry.work) fitting.entry.names (plain_sequel fitting.entry.next) ∷ []) (shown machine.old))) }
{
    machine.first_choice(alloc, ChoiceTask::Compare(value, fitting))?;
    use_member(machine, alloc, name, member)
}

fn fit_if<'a>(
    machine: &mut Machine<'a>,
    alloc: Global,
    fits: bool,
    fitting: Fitting<'a>,
) -> Result<(), AllocError>
    ensures { OnOk result (shown machine.new ≡ fits_if fits (map plain_waiting fitting.entry.work) fitting.entry.names (plain_sequel fitting.entry.next) (shown machine.old)) }
{
    if fits {
        machine.first_choice(alloc, ChoiceTask::Fit(fitting))
    } else {
        fail(machine, alloc, fitting.next)
    }
}

/// Goes on with the pattern where the value that was found is the one that is to fit.
pub(crate) fn compare<'a>(
    machine: &mut Machine<'a>,
    alloc: Global,
    value: DslxValue,
    fitting: Fitting<'a>,
) -> Result<(), AllocError>
    ensures { OnOk result (shown machine.new ≡ stepped (Compares value (map plain_waiting fitting.entry.work) fitting.entry.names (plain_sequel fitting.entry.next)) (shown machine.old)) }
{
    match machine.take_value() {
        Some(other) => fit_if(machine, alloc, same_value(&value, &other), fitting),
        None => fail(machine, alloc, fitting.next),
    }
}

/// A name that is a constant's is compared with, any other one is bound.
fn fit_name<'a>(
    machine: &mut Machine<'a>,
    alloc: Global,
    name: &'a Name,
    value: DslxValue,
    mut fitting: Fitting<'a>,
) -> Result<(), AllocError>
    ensures { OnOk result (shown machine.new ≡ fits_name (is_constant_within (shown machine.old).text (shown machine.old).left name.now) name.now value (map plain_waiting fitting.entry.work) fitting.entry.names (plain_sequel fitting.entry.next) (shown machine.old)) }
{
    if is_constant(machine, name) {
        machine.first_choice(alloc, ChoiceTask::Compare(value, fitting))?;
        use_constant(machine, alloc, name)
    } else {
        fitting.names.bind(Binding { name, value })?;
        machine.first_choice(alloc, ChoiceTask::Fit(fitting))
    }
}

fn fit_parts<'a>(
    machine: &mut Machine<'a>,
    alloc: Global,
    parts: Option<Seq<DslxValue>>,
    patterns: &'a [Pattern],
    mut fitting: Fitting<'a>,
) -> Result<(), AllocError>
    ensures { OnOk result (shown machine.new ≡ fits_parts parts patterns.now (map plain_waiting fitting.entry.work) fitting.entry.names (plain_sequel fitting.entry.next) (shown machine.old)) }
{
    match parts {
        Some(parts) => {
            fitting.work.push(Waiting {
                patterns,
                values: in_order(alloc, parts)?,
            })?;
            machine.first_choice(alloc, ChoiceTask::Fit(fitting))
        }
        None => fail(machine, alloc, fitting.next),
    }
}

/// Goes on with what waits first.
pub(crate) fn fit_all<'a>(
    machine: &mut Machine<'a>,
    alloc: Global,
    mut fitting: Fitting<'a>,
) -> Result<(), AllocError>
    ensures { OnOk result (shown machine.new ≡ fits_all (map plain_waiting fitting.entry.work) fitting.entry.names (plain_sequel fitting.entry.next) (shown machine.old)) }
{
    match fitting.work.take_off() {
        Some(first) => fit_first(machine, alloc, first, fitting),
        None => go_on(machine, alloc, fitting.names, fitting.next),
    }
}

fn fit_first<'a>(
    machine: &mut Machine<'a>,
    alloc: Global,
    first: Waiting<'a>,
    fitting: Fitting<'a>,
) -> Result<(), AllocError>
    ensures { OnOk result (shown machine.new ≡ fits_first first.entry.patterns.now first.entry.values (map plain_waiting fitting.entry.work) fitting.entry.names (plain_sequel fitting.entry.next) (shown machine.old)) }
{
    let mut values = first.values;
    match first.patterns {
        [] => match values.take_off() {
            Some(_) => fail(machine, alloc, fitting.next),
            None => machine.first_choice(alloc, ChoiceTask::Fit(fitting)),
        },
        [pattern, rest @ ..] => match values.take_off() {
            Some(value) => fit_part(
                machine,
                alloc,
                pattern,
                value,
                Waiting {
                    patterns: rest,
                    values,
                },
                fitting,
            ),
            None => fail(machine, alloc, fitting.next),
        },
    }
}

/// A value is to fit a pattern, then these to fit others, and then what waits.
fn fit_part<'a>(
    machine: &mut Machine<'a>,
    alloc: Global,
    pattern: &'a Pattern,
    value: DslxValue,
    rest: Waiting<'a>,
    mut fitting: Fitting<'a>,
) -> Result<(), AllocError>
    ensures { OnOk result (shown machine.new ≡ fits_first (pattern.now ∷ rest.entry.patterns.now) (value ∷ rest.entry.values) (map plain_waiting fitting.entry.work) fitting.entry.names (plain_sequel fitting.entry.next) (shown machine.old)) }
{
    fitting.work.push(rest)?;
    fit_one(machine, alloc, pattern, value, fitting)
}

/// All fits, and what the pattern binds is bound until what comes behind is done.
fn go_on<'a>(
    machine: &mut Machine<'a>,
    alloc: Global,
    names: Scope<'a>,
    next: Boxed<Sequel<'a>>,
) -> Result<(), AllocError>
    ensures { OnOk result (shown machine.new ≡ goes_on names.entry (plain_sequel next.entry) (shown machine.old)) }
{
    let count = names.len();
    machine.bound.bind_all(names)?;
    match next.into_inner() {
        Sequel::Statements(statements, last) => {
            then_forget(
                machine,
                alloc,
                ValueTask::Statements(statements, last),
                count,
            )
        }
        Sequel::Accumulator(pattern, value, body) => fit_one(
            machine,
            alloc,
            pattern,
            value,
            Fitting::new(alloc, Sequel::Body(count, body))?,
        ),
        Sequel::Body(of_index, body) => {
            machine.first_choice(alloc, ChoiceTask::Forget(of_index))?;
            then_forget(machine, alloc, ValueTask::Block(body), count)
        }
        Sequel::Arm(_, arm, _, _) => machine.eval_then_choice(
            alloc,
            &arm.value,
            ChoiceTask::Forget(count),
        ),
    }
}

/// Something is to be done, and then as many names to be forgotten.
fn then_forget<'a>(
    machine: &mut Machine<'a>,
    alloc: Global,
    task: ValueTask<'a>,
    count: usize,
) -> Result<(), AllocError>
    ensures { OnOk result (shown machine.new ≡ doing (plain_value_task task.entry ∷ Forgets count ∷ []) (shown machine.old)) }
{
    machine.first_choice(alloc, ChoiceTask::Forget(count))?;
    machine.first_value(alloc, task)
}

/// Something doesn't fit: the next pattern of an arm is tried, if it is one's.
fn fail<'a>(
    machine: &mut Machine<'a>,
    alloc: Global,
    next: Boxed<Sequel<'a>>,
) -> Result<(), AllocError>
    ensures { OnOk result (shown machine.new ≡ fails (plain_sequel next.entry) (shown machine.old)) }
{
    match next.into_inner() {
        Sequel::Arm(patterns, arm, rest, value) => {
            machine.first_choice(alloc, ChoiceTask::Try(patterns, arm, rest, value))
        }
        Sequel::Body(of_index, _) => {
            machine.bound.forget(of_index);
            machine.give(None)
        }
        Sequel::Statements(_, _) | Sequel::Accumulator(_, _, _) => machine.give(None),
    }
}
