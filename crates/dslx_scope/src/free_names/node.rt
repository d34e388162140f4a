//! Expressions.

ghost use Rattle.std.specs.Prelude.{◌≡◌, ◌∷◌, [], OnOk};
ghost use Rattle.dslx_meaning.specs.Activation.{node_of};
ghost use Rattle.dslx_scope.specs.FreeNames.Plain.{shown};
ghost use Rattle.dslx_scope.specs.FreeNames.Steps.{node_opens, loop_opens, exprs_open, args_open, field_opens, fields_open, type_visited, expr_visited, visiting};
ghost use Rattle.dslx_scope.specs.FreeNames.Tasks.{VisitsExprs, VisitsFields};

use crate::free_names::machine::Machine;
use crate::free_names::task::Task;
use base::texts::Name;
use dslx_tree::{Arg, Expr, FieldValue, For, Node, TypeExpr};
use std::alloc::AllocError;
use xb_value::Boxed;

/// Visits the parts of an expression.
pub(crate) fn open_expr<'a>(machine: &mut Machine<'a>, expr: &'a Expr) -> Result<(), AllocError>
    ensures { OnOk result (shown machine.new ≡ node_opens (node_of expr.now) (shown machine.old)) }
{
    match &expr.node {
        Node::Number(number) => machine.type_first(&number.ty),
        Node::Bool(_) => Ok(()),
        Node::Array(ty, elements, _) => open_array(machine, ty, elements.as_slice()),
        Node::Name(name) => machine.meet(name),
        Node::Member(_, _) => Ok(()),
        Node::Call(_, parametric_args, operands) => machine.both(
            Task::Args(parametric_args.as_slice()),
            Task::Exprs(operands.as_slice()),
        ),
        Node::Tuple(parts) => machine.first(Task::Exprs(parts.as_slice())),
        Node::Struct(_, fields, rest) => open_struct(machine, fields.as_slice(), rest),
        Node::Block(block) => machine.first(Task::Block(block.get())),
        Node::If(test, yes, no) => machine.three(
            Task::Expr(test.get()),
            Task::Block(yes.get()),
            Task::Expr(no.get()),
        ),
        Node::Match(expr, arms) => {
            machine.both(Task::Expr(expr.get()), Task::Arms(arms.as_slice()))
        }
        Node::For(turns) => open_loop(machine, turns.get()),
        Node::Index(array, place) => {
            machine.both(Task::Expr(array.get()), Task::Expr(place.get()))
        }
        Node::Slice(expr, from, to) => machine.three(
            Task::Expr(expr.get()),
            Task::Expr(from.get()),
            Task::Expr(to.get()),
        ),
        Node::Part(expr, start, ty) => machine.three(
            Task::Expr(expr.get()),
            Task::Expr(start.get()),
            Task::Type(ty.get()),
        ),
        Node::Field(expr, _) => machine.first(Task::Expr(expr.get())),
        Node::Element(expr, _, _) => machine.first(Task::Expr(expr.get())),
        Node::Prefix(_, expr) => machine.first(Task::Expr(expr.get())),
        Node::Cast(expr, ty) => machine.both(Task::Expr(expr.get()), Task::Type(ty.get())),
        Node::Binary(_, left, right) => {
            machine.both(Task::Expr(left.get()), Task::Expr(right.get()))
        }
    }
}

/// Visits the type of an array, if one is written, and then its elements.
fn open_array<'a>(
    machine: &mut Machine<'a>,
    ty: &'a Option<Boxed<TypeExpr>>,
    elements: &'a [Expr],
) -> Result<(), AllocError>
    ensures { OnOk result (shown machine.new ≡ type_visited ty.now (visiting (VisitsExprs elements.now ∷ []) (shown machine.old))) }
{
    machine.first(Task::Exprs(elements))?;
    machine.type_first(ty)
}

/// Visits the fields of a struct, and what gives the others.
fn open_struct<'a>(
    machine: &mut Machine<'a>,
    fields: &'a [FieldValue],
    rest: &'a Option<Boxed<Expr>>,
) -> Result<(), AllocError>
    ensures { OnOk result (shown machine.new ≡ visiting (VisitsFields fields.now ∷ []) (expr_visited rest.now (shown machine.old))) }
{
    machine.expr_first(rest)?;
    machine.first(Task::Fields(fields))
}

/// Visits the parts of a loop: its body sees what both patterns bind.
fn open_loop<'a>(machine: &mut Machine<'a>, turns: &'a For) -> Result<(), AllocError>
    ensures { OnOk result (shown machine.new ≡ loop_opens turns.now (shown machine.old)) }
{
    let keep = machine.keep();
    machine.both(Task::Block(&turns.body), keep)?;
    machine.both(Task::Bind(&turns.index), Task::Bind(&turns.accumulator))?;
    machine.both(
        Task::Pattern(&turns.index),
        Task::Pattern(&turns.accumulator),
    )?;
    machine.type_first(&turns.ty)?;
    machine.three(
        Task::Expr(&turns.from),
        Task::Expr(&turns.to),
        Task::Expr(&turns.start),
    )
}

/// Visits expressions in order.
pub(crate) fn open_exprs<'a>(machine: &mut Machine<'a>, exprs: &'a [Expr]) -> Result<(), AllocError>
    ensures { OnOk result (shown machine.new ≡ exprs_open exprs.now (shown machine.old)) }
{
    match exprs {
        [expr, rest @ ..] => machine.both(Task::Expr(expr), Task::Exprs(rest)),
        [] => Ok(()),
    }
}

/// Visits parametric arguments in order.
pub(crate) fn open_args<'a>(machine: &mut Machine<'a>, args: &'a [Arg]) -> Result<(), AllocError>
    ensures { OnOk result (shown machine.new ≡ args_open args.now (shown machine.old)) }
{
    match args {
        [arg, rest @ ..] => machine.both(Task::Expr(&arg.value), Task::Args(rest)),
        [] => Ok(()),
    }
}

/// Visits fields in order.
pub(crate) fn open_fields<'a>(
    machine: &mut Machine<'a>,
    fields: &'a [FieldValue],
) -> Result<(), AllocError>
    ensures { OnOk result (shown machine.new ≡ fields_open fields.now (shown machine.old)) }
{
    match fields {
        [field, rest @ ..] => {
            machine.first(Task::Fields(rest))?;
            open_field(machine, &field.name.name, &field.value)
        }
        [] => Ok(()),
    }
}

/// Visits the value of a field; without one, it is what its name stands for.
fn open_field<'a>(
    machine: &mut Machine<'a>,
    name: &'a Name,
    value: &'a Option<Boxed<Expr>>,
) -> Result<(), AllocError>
    ensures { OnOk result (shown machine.new ≡ field_opens name.now value.now (shown machine.old)) }
{
    match value {
        Some(expr) => machine.first(Task::Expr(expr.get())),
        None => machine.meet(name),
    }
}
