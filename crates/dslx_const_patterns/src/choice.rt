//! Matches and loops.

ghost use Rattle.std.specs.Prelude.{◌≡◌, ◌∷◌, OnOk, List, map};
ghost use Rattle.xb_bits.specs.Word.{word};
ghost use Rattle.xb_bits.specs.Operations.{add as add_words};
ghost use Rattle.dslx_tree.specs.declared.pattern.Pattern.{Pattern as PatternTree};
ghost use Rattle.dslx_meaning.specs.Names.ConstMachine.Layers.{shape_of};
ghost use Rattle.dslx_meaning.specs.Names.ConstMachine.Patterns.{tries, last_or_next, selects, binds_nothing, all_bind_nothing, first_found, last_found, turns_on};
ghost use Rattle.dslx_meaning.specs.Names.ConstMachine.Steps.{stepped};
ghost use Rattle.dslx_meaning.specs.Names.ConstMachine.Tasks.{Selects, StartsLoop, FindsFirst, FindsLast, Turns};
ghost use Rattle.dslx_const_patterns.specs.Inner.Turns.{turns_begin};
ghost use Rattle.dslx_const_tasks.specs.Plain.{shown, plain_choice_task};

use crate::pattern::{compare, fit_all, fit_one};
use base::stacks::Stack;
use dslx_const_tasks::items::is_constant;
use dslx_const_tasks::{ChoiceTask, Fitting, Machine, Sequel, Task, one_less};
use dslx_meaning::{DslxValue, SignedWord};
use dslx_tree::{Arm, Expr, For, Pattern, Shape};
use dslx_values::operators::turns;
use dslx_values::{bits_of, copy_value};
use std::alloc::{AllocError, Global};
use xb_bits::{Bits, add, zext};

/// Does a task of a pattern, a match or a loop.
pub fn step_choice<'a>(
    machine: &mut Machine<'a>,
    alloc: Global,
    task: ChoiceTask<'a>,
) -> Result<(), AllocError>
    ensures { OnOk result (shown machine.new ≡ stepped (plain_choice_task task.entry) (shown machine.old)) }
{
    match task {
        ChoiceTask::Select(arms) => select(machine, alloc, arms),
        ChoiceTask::Try(patterns, arm, rest, value) => {
            try_patterns(machine, alloc, patterns, arm, rest, value)
        }
        ChoiceTask::BindNothing(patterns, expr) => bind_nothing(machine, alloc, patterns, expr),
        ChoiceTask::Fit(fitting) => fit_all(machine, alloc, fitting),
        ChoiceTask::Compare(value, fitting) => compare(machine, alloc, value, fitting),
        ChoiceTask::Forget(count) => {
            machine.bound.forget(count);
            Ok(())
        }
        ChoiceTask::StartLoop(turns) => start_loop(machine, alloc, turns),
        ChoiceTask::FindFirst(turns, start) => find_first(machine, alloc, turns, start),
        ChoiceTask::FindLast(turns, start, first) => find_last(machine, alloc, turns, start, first),
        ChoiceTask::Turn(turns, signed, count, index) => {
            turn(machine, alloc, turns, signed, count, index)
        }
    }
}

fn select<'a>(machine: &mut Machine<'a>, alloc: Global, arms: &'a [Arm]) -> Result<(), AllocError>
    ensures { OnOk result (shown machine.new ≡ stepped (Selects arms.now) (shown machine.old)) }
{
    match machine.take_value() {
        Some(value) => select_by(machine, alloc, arms, value),
        None => Ok(()),
    }
}

fn select_by<'a>(
    machine: &mut Machine<'a>,
    alloc: Global,
    arms: &'a [Arm],
    value: DslxValue,
) -> Result<(), AllocError>
    ensures { OnOk result (shown machine.new ≡ selects arms.now value (shown machine.old)) }
{
    match arms {
        [] => machine.give(None),
        [first, rest @ ..] => machine.first_choice(
            alloc,
            ChoiceTask::Try(first.patterns.as_slice(), first, rest, value),
        ),
    }
}

fn try_patterns<'a>(
    machine: &mut Machine<'a>,
    alloc: Global,
    patterns: &'a [Pattern],
    arm: &'a Arm,
    rest: &'a [Arm],
    value: DslxValue,
) -> Result<(), AllocError>
    ensures { OnOk result (shown machine.new ≡ tries patterns.now arm.now rest.now value (shown machine.old)) }
{
    match patterns {
        [] => try_next(machine, alloc, arm, rest, value),
        [first, others @ ..] => {
            let copy = copy_value(alloc, &value)?;
            fit_one(
                machine,
                alloc,
                first,
                copy,
                Fitting::new(alloc, Sequel::Arm(others, arm, rest, value))?,
            )
        }
    }
}

/// Goes on with the next arm, or with this one if it is the last one and binds nothing.
fn try_next<'a>(
    machine: &mut Machine<'a>,
    alloc: Global,
    arm: &'a Arm,
    rest: &'a [Arm],
    value: DslxValue,
) -> Result<(), AllocError>
    ensures { OnOk result (shown machine.new ≡ last_or_next arm.now rest.now value (shown machine.old)) }
{
    match rest {
        [] => {
            let mut patterns = Stack::new(alloc);
            patterns.push(arm.patterns.as_slice())?;
            machine.first_choice(alloc, ChoiceTask::BindNothing(patterns, &arm.value))
        }
        [next, others @ ..] => machine.first_choice(
            alloc,
            ChoiceTask::Try(next.patterns.as_slice(), next, others, value),
        ),
    }
}

fn bind_nothing<'a>(
    machine: &mut Machine<'a>,
    alloc: Global,
    mut patterns: Stack<&'a [Pattern]>,
    expr: &'a Expr,
) -> Result<(), AllocError>
    ensures { OnOk result (shown machine.new ≡ all_bind_nothing (map {B = List PatternTree} (λ ps. ps.now) patterns.entry) expr.now (shown machine.old)) }
{
    match patterns.take_off() {
        Some(first) => bind_nothing_among(machine, alloc, first, patterns, expr),
        None => machine.first(Task::Eval(expr)),
    }
}

/// Goes on with patterns that may bind nothing.
fn bind_nothing_among<'a>(
    machine: &mut Machine<'a>,
    alloc: Global,
    among: &'a [Pattern],
    mut patterns: Stack<&'a [Pattern]>,
    expr: &'a Expr,
) -> Result<(), AllocError>
    ensures { OnOk result (shown machine.new ≡ all_bind_nothing (among.now ∷ map {B = List PatternTree} (λ ps. ps.now) patterns.entry) expr.now (shown machine.old)) }
{
    match among {
        [] => machine.first_choice(alloc, ChoiceTask::BindNothing(patterns, expr)),
        [first, rest @ ..] => {
            patterns.push(rest)?;
            bind_nothing_in(machine, alloc, first, patterns, expr)
        }
    }
}

/// Goes on behind a pattern that may bind nothing.
fn bind_nothing_in<'a>(
    machine: &mut Machine<'a>,
    alloc: Global,
    pattern: &'a Pattern,
    mut patterns: Stack<&'a [Pattern]>,
    expr: &'a Expr,
) -> Result<(), AllocError>
    ensures { OnOk result (shown machine.new ≡ binds_nothing (shape_of pattern.now) (map {B = List PatternTree} (λ ps. ps.now) patterns.entry) expr.now (shown machine.old)) }
{
    match &pattern.shape {
        Shape::Name(name) => if is_constant(machine, name) {
            machine.first_choice(alloc, ChoiceTask::BindNothing(patterns, expr))
        } else {
            machine.give(None)
        },
        Shape::Tuple(parts) => {
            patterns.push(parts.as_slice())?;
            machine.first_choice(alloc, ChoiceTask::BindNothing(patterns, expr))
        }
        Shape::Wild | Shape::Bool(_) | Shape::Number(_) | Shape::Member(_, _) => {
            machine.first_choice(alloc, ChoiceTask::BindNothing(patterns, expr))
        }
    }
}

fn start_loop<'a>(
    machine: &mut Machine<'a>,
    alloc: Global,
    turns: &'a For,
) -> Result<(), AllocError>
    ensures { OnOk result (shown machine.new ≡ stepped (StartsLoop turns.now) (shown machine.old)) }
{
    match machine.take_value() {
        Some(start) => machine.eval_then_choice(
            alloc,
            &turns.from,
            ChoiceTask::FindFirst(turns, start),
        ),
        None => Ok(()),
    }
}

fn find_first<'a>(
    machine: &mut Machine<'a>,
    alloc: Global,
    turns: &'a For,
    start: DslxValue,
) -> Result<(), AllocError>
    ensures { OnOk result (shown machine.new ≡ stepped (FindsFirst turns.now start) (shown machine.old)) }
{
    match machine.take_value() {
        Some(value) => begin_end(machine, alloc, turns, start, bits_of(&value)),
        None => Ok(()),
    }
}

fn begin_end<'a>(
    machine: &mut Machine<'a>,
    alloc: Global,
    turns: &'a For,
    start: DslxValue,
    first: Option<SignedWord>,
) -> Result<(), AllocError>
    ensures { OnOk result (shown machine.new ≡ first_found turns.now start first (shown machine.old)) }
{
    match first {
        Some(first) => machine.eval_then_choice(
            alloc,
            &turns.to,
            ChoiceTask::FindLast(turns, start, first),
        ),
        None => machine.give(None),
    }
}

fn find_last<'a>(
    machine: &mut Machine<'a>,
    alloc: Global,
    turns: &'a For,
    start: DslxValue,
    first: SignedWord,
) -> Result<(), AllocError>
    ensures { OnOk result (shown machine.new ≡ stepped (FindsLast turns.now start first) (shown machine.old)) }
{
    match machine.take_value() {
        Some(value) => begin_turns(machine, alloc, turns, start, first, bits_of(&value)),
        None => Ok(()),
    }
}

#[tactic(auto, using(crate::proofs::Turns::turns_counted))]
fn begin_turns<'a>(
    machine: &mut Machine<'a>,
    alloc: Global,
    loop_: &'a For,
    start: DslxValue,
    first: SignedWord,
    last: Option<SignedWord>,
) -> Result<(), AllocError>
    ensures { OnOk result (shown machine.new ≡ last_found loop_.now start first last (shown machine.old)) }
{
    match last {
        Some(last) => {
            let count = turns(&first, &last);
            begin_counted(machine, alloc, count, loop_, start, first)
        }
        None => machine.give(None),
    }
}

/// Goes on with so many turns.
fn begin_counted<'a>(
    machine: &mut Machine<'a>,
    alloc: Global,
    count: Option<u128>,
    turns: &'a For,
    start: DslxValue,
    first: SignedWord,
) -> Result<(), AllocError>
    ensures { OnOk result (shown machine.new ≡ turns_begin count turns.now start first (shown machine.old)) }
{
    match count {
        Some(count) => {
            machine.first_choice(
                alloc,
                ChoiceTask::Turn(turns, first.signed, count, first.word),
            )?;
            machine.give(Some(start))
        }
        None => machine.give(None),
    }
}

fn turn<'a>(
    machine: &mut Machine<'a>,
    alloc: Global,
    turns: &'a For,
    signed: bool,
    count: u128,
    index: Bits,
) -> Result<(), AllocError>
    ensures { OnOk result (shown machine.new ≡ stepped (Turns turns.now signed count index) (shown machine.old)) }
{
    match machine.take_value() {
        Some(value) => turn_once(machine, alloc, one_less(count), turns, signed, index, value),
        None => Ok(()),
    }
}

/// Goes on with a turn, behind which so many are left, if there is one.
fn turn_once<'a>(
    machine: &mut Machine<'a>,
    alloc: Global,
    left: Option<u128>,
    turns: &'a For,
    signed: bool,
    index: Bits,
    value: DslxValue,
) -> Result<(), AllocError>
    ensures { OnOk result (shown machine.new ≡ turns_on left turns.now signed index value (shown machine.old)) }
{
    match left {
        Some(left) => {
            machine.first_choice(
                alloc,
                ChoiceTask::Turn(turns, signed, left, next_index(index)),
            )?;
            fit_one(
                machine,
                alloc,
                &turns.index,
                DslxValue::Bits(signed, index),
                Fitting::new(
                    alloc,
                    Sequel::Accumulator(&turns.accumulator, value, &turns.body),
                )?,
            )
        }
        None => machine.give(Some(value)),
    }
}

/// The index behind another one, which is 0 behind the last one.
fn next_index(index: Bits) -> Bits
    ensures { result ≡ add_words index (word index.width 1) }
{
    add(index, zext(Bits::new(1, 1), index.width()))
}
