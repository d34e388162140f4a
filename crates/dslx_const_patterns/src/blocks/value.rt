//! Blocks, and what is made of one value or two.

ghost use Rattle.std.specs.Prelude.{◌≡◌, OnOk, IfOk};
ghost use Rattle.dslx_tree.specs.declared.block.Stmt.{out-Stmt};
ghost use Rattle.dslx_meaning.specs.Names.ConstMachine.Steps.{stepped, made_of_one, made_of_pair, part_begins, chooses, stmt_begins, last_begins, statements_begin};
ghost use Rattle.dslx_meaning.specs.Names.ConstMachine.Tasks.{Binds, Passes, Numbers, MakesOne, FindsRight, MakesPair, TakesPart, Casts, FindsEnd, Slices, Chooses};
ghost use Rattle.dslx_const_tasks.specs.Plain.{shown, plain_value_task, plain_one, plain_pair};

use crate::fit_one;
use dslx_const_tasks::items::{binary, cast, number_of, part};
use dslx_const_tasks::{Fitting, Machine, OneMaker, PairMaker, Sequel, Task, ValueTask};
use dslx_meaning::{BitKind, DslxValue, UntypedLiteral};
use dslx_tree::{Block, Expr, Pattern, Stmt};
use dslx_values::operators::{element_value, index_value, prefix_value, slice_value, truth};
use dslx_values::{bits_in, field_of, unit_value};
use std::alloc::{AllocError, Global};
use xb_value::Boxed;

/// Does a task of a block, or of an operation of one value or two.
pub fn step_value<'a>(
    machine: &mut Machine<'a>,
    alloc: Global,
    task: ValueTask<'a>,
) -> Result<(), AllocError>
    ensures { OnOk result (shown machine.new ≡ stepped (plain_value_task task.entry) (shown machine.old)) }
{
    match task {
        ValueTask::Block(block) => begin_statements(
            machine,
            alloc,
            block.statements.as_slice(),
            &block.value,
        ),
        ValueTask::Statements(statements, last) => {
            begin_statements(machine, alloc, statements, last)
        }
        ValueTask::Bind(pattern, statements, last) => {
            begin_bind(machine, alloc, pattern, statements, last)
        }
        ValueTask::Pass(statements, last) => pass(machine, alloc, statements, last),
        ValueTask::Number(number) => make_number(machine, number),
        ValueTask::MakeOne(maker) => make_one(machine, alloc, maker),
        ValueTask::FindRight(maker, expr) => find_right(machine, alloc, maker, expr),
        ValueTask::MakePair(maker, left) => make_pair(machine, alloc, maker, left),
        ValueTask::TakePart(expr, start) => take_part(machine, alloc, expr, start),
        ValueTask::Cast(expr) => begin_cast(machine, alloc, expr),
        ValueTask::FindEnd(expr, end) => find_end(machine, alloc, expr, end),
        ValueTask::Slice(expr, from) => begin_slice(machine, alloc, expr, from),
        ValueTask::Choose(yes, no) => choose(machine, alloc, yes, no),
    }
}

fn begin_statements<'a>(
    machine: &mut Machine<'a>,
    alloc: Global,
    statements: &'a [Stmt],
    last: &'a Option<Boxed<Expr>>,
) -> Result<(), AllocError>
    ensures { OnOk result (shown machine.new ≡ statements_begin statements.now last.now (shown machine.old)) }
{
    match statements {
        [] => begin_last(machine, alloc, last),
        [first, rest @ ..] => begin_statement(machine, alloc, first, rest, last),
    }
}

fn begin_last<'a>(
    machine: &mut Machine<'a>,
    alloc: Global,
    last: &'a Option<Boxed<Expr>>,
) -> Result<(), AllocError>
    ensures { OnOk result (shown machine.new ≡ last_begins last.now (shown machine.old)) }
{
    match last {
        Some(expr) => machine.first(Task::Eval(expr.get())),
        None => machine.give(Some(unit_value(alloc))),
    }
}

fn begin_statement<'a>(
    machine: &mut Machine<'a>,
    alloc: Global,
    statement: &'a Stmt,
    rest: &'a [Stmt],
    last: &'a Option<Boxed<Expr>>,
) -> Result<(), AllocError>
    ensures { OnOk result (shown machine.new ≡ stmt_begins (out-Stmt statement.now) rest.now last.now (shown machine.old)) }
{
    match statement {
        Stmt::Let(binding) => machine.eval_then_value(
            alloc,
            &binding.value,
            ValueTask::Bind(&binding.pattern, rest, last),
        ),
        Stmt::Bare(expr) => machine.eval_then_value(alloc, expr, ValueTask::Pass(rest, last)),
    }
}

fn begin_bind<'a>(
    machine: &mut Machine<'a>,
    alloc: Global,
    pattern: &'a Pattern,
    statements: &'a [Stmt],
    last: &'a Option<Boxed<Expr>>,
) -> Result<(), AllocError>
    ensures { OnOk result (shown machine.new ≡ stepped (Binds pattern.now statements.now last.now) (shown machine.old)) }
{
    match machine.take_value() {
        Some(value) => fit_one(
            machine,
            alloc,
            pattern,
            value,
            Fitting::new(alloc, Sequel::Statements(statements, last))?,
        ),
        None => Ok(()),
    }
}

fn pass<'a>(
    machine: &mut Machine<'a>,
    alloc: Global,
    statements: &'a [Stmt],
    last: &'a Option<Boxed<Expr>>,
) -> Result<(), AllocError>
    ensures { OnOk result (shown machine.new ≡ stepped (Passes statements.now last.now) (shown machine.old)) }
{
    match machine.take_value() {
        Some(_) => machine.first_value(alloc, ValueTask::Statements(statements, last)),
        None => Ok(()),
    }
}

/// The number of the type that was found.
fn make_number<'a>(machine: &mut Machine<'a>, number: UntypedLiteral) -> Result<(), AllocError>
    ensures { OnOk result (shown machine.new ≡ stepped (Numbers number) (shown machine.old)) }
{
    match machine.take_type() {
        Some(ty) => {
            let value = number_of(&ty, number)?;
            machine.give(value)
        }
        None => Ok(()),
    }
}

fn make_one<'a>(
    machine: &mut Machine<'a>,
    alloc: Global,
    maker: OneMaker<'a>,
) -> Result<(), AllocError>
    ensures { OnOk result (shown machine.new ≡ stepped (MakesOne (plain_one maker.entry)) (shown machine.old)) }
{
    match machine.take_value() {
        Some(value) => {
            let made = one_made(alloc, maker, &value)?;
            machine.give(made)
        }
        None => Ok(()),
    }
}

fn find_right<'a>(
    machine: &mut Machine<'a>,
    alloc: Global,
    maker: PairMaker,
    expr: &'a Expr,
) -> Result<(), AllocError>
    ensures { OnOk result (shown machine.new ≡ stepped (FindsRight (plain_pair maker) expr.now) (shown machine.old)) }
{
    match machine.take_value() {
        Some(left) => machine.eval_then_value(alloc, expr, ValueTask::MakePair(maker, left)),
        None => Ok(()),
    }
}

fn make_pair<'a>(
    machine: &mut Machine<'a>,
    alloc: Global,
    maker: PairMaker,
    left: DslxValue,
) -> Result<(), AllocError>
    ensures { OnOk result (shown machine.new ≡ stepped (MakesPair (plain_pair maker) left) (shown machine.old)) }
{
    match machine.take_value() {
        Some(right) => {
            let made = pair_made(alloc, maker, &left, &right)?;
            machine.give(made)
        }
        None => Ok(()),
    }
}

fn take_part<'a>(
    machine: &mut Machine<'a>,
    alloc: Global,
    expr: &'a Expr,
    start: &'a Expr,
) -> Result<(), AllocError>
    ensures { OnOk result (shown machine.new ≡ stepped (TakesPart expr.now start.now) (shown machine.old)) }
{
    match machine.take_type() {
        Some(ty) => begin_part(machine, alloc, bits_in(&ty), expr, start),
        None => Ok(()),
    }
}

fn begin_part<'a>(
    machine: &mut Machine<'a>,
    alloc: Global,
    kind: Option<BitKind>,
    expr: &'a Expr,
    start: &'a Expr,
) -> Result<(), AllocError>
    ensures { OnOk result (shown machine.new ≡ part_begins kind expr.now start.now (shown machine.old)) }
{
    match kind {
        Some(kind) => if kind.signed {
            machine.give(None)
        } else {
            machine.eval_then_value(
                alloc,
                expr,
                ValueTask::FindRight(PairMaker::Part(kind.width), start),
            )
        },
        None => machine.give(None),
    }
}

fn begin_cast<'a>(
    machine: &mut Machine<'a>,
    alloc: Global,
    expr: &'a Expr,
) -> Result<(), AllocError>
    ensures { OnOk result (shown machine.new ≡ stepped (Casts expr.now) (shown machine.old)) }
{
    match machine.take_type() {
        Some(ty) => machine.eval_then_value(alloc, expr, ValueTask::MakeOne(OneMaker::Cast(ty))),
        None => Ok(()),
    }
}

fn find_end<'a>(
    machine: &mut Machine<'a>,
    alloc: Global,
    expr: &'a Expr,
    end: &'a Expr,
) -> Result<(), AllocError>
    ensures { OnOk result (shown machine.new ≡ stepped (FindsEnd expr.now end.now) (shown machine.old)) }
{
    match machine.take_count() {
        Some(from) => machine.bound_then_value(alloc, end, ValueTask::Slice(expr, from)),
        None => Ok(()),
    }
}

fn begin_slice<'a>(
    machine: &mut Machine<'a>,
    alloc: Global,
    expr: &'a Expr,
    from: u128,
) -> Result<(), AllocError>
    ensures { OnOk result (shown machine.new ≡ stepped (Slices expr.now from) (shown machine.old)) }
{
    match machine.take_count() {
        Some(to) => machine.eval_then_value(
            alloc,
            expr,
            ValueTask::MakeOne(OneMaker::Slice(from, to)),
        ),
        None => Ok(()),
    }
}

fn choose<'a>(
    machine: &mut Machine<'a>,
    alloc: Global,
    yes: &'a Block,
    no: &'a Expr,
) -> Result<(), AllocError>
    ensures { OnOk result (shown machine.new ≡ stepped (Chooses yes.now no.now) (shown machine.old)) }
{
    match machine.take_value() {
        Some(value) => choose_by(machine, alloc, truth(&value), yes, no),
        None => Ok(()),
    }
}

fn choose_by<'a>(
    machine: &mut Machine<'a>,
    alloc: Global,
    holds: Option<bool>,
    yes: &'a Block,
    no: &'a Expr,
) -> Result<(), AllocError>
    ensures { OnOk result (shown machine.new ≡ chooses holds yes.now no.now (shown machine.old)) }
{
    match holds {
        Some(true) => machine.first_value(alloc, ValueTask::Block(yes)),
        Some(false) => machine.first(Task::Eval(no)),
        None => machine.give(None),
    }
}

/// What is made of a value.
fn one_made(
    alloc: Global,
    maker: OneMaker,
    value: &DslxValue,
) -> Result<Option<DslxValue>, AllocError>
    ensures { IfOk result (λ v. v ≡ made_of_one (plain_one maker.entry) value.now) }
{
    match maker {
        OneMaker::Prefix(op) => Ok(prefix_value(op, value)),
        OneMaker::Field(name) => field_of(alloc, value, name.as_str()),
        OneMaker::Element(number) => element_value(alloc, value, number),
        OneMaker::Cast(ty) => cast(&ty, value),
        OneMaker::Slice(from, to) => Ok(slice_value(value, from, to)),
    }
}

/// What is made of two values.
fn pair_made(
    alloc: Global,
    maker: PairMaker,
    left: &DslxValue,
    right: &DslxValue,
) -> Result<Option<DslxValue>, AllocError>
    ensures { IfOk result (λ v. v ≡ made_of_pair (plain_pair maker) left.now right.now) }
{
    match maker {
        PairMaker::Binary(op) => binary(op, left, right),
        PairMaker::Index => index_value(alloc, left, right),
        PairMaker::Part(width) => part(left, right, width),
    }
}
