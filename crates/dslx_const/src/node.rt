//! What is to be done for an expression.

ghost use Rattle.std.specs.Prelude.{◌≡◌, ◌∷◌, [], OnOk};
ghost use Rattle.dslx_meaning.specs.Activation.{node_of};
ghost use Rattle.dslx_meaning.specs.Names.ConstMachine.Items.{uses_struct};
ghost use Rattle.dslx_meaning.specs.Names.ConstMachine.States.{doing};
ghost use Rattle.dslx_meaning.specs.Names.ConstMachine.Tasks.{FindsFields};
ghost use Rattle.dslx_meaning.specs.Names.ConstMachine.Steps.{array_begins, node_begins};
ghost use Rattle.dslx_const_tasks.specs.Plain.{shown};

use crate::lists::{gather, gather_parametric_args};
use base::texts::Name;
use dslx_const_patterns::use_number;
use dslx_const_tasks::items::{use_member, use_name, use_struct};
use dslx_const_tasks::{ChoiceTask, ListMaker, ListTask, Machine, OneMaker, PairMaker, ValueTask};
use dslx_tree::{Expr, FieldValue, Node, TypeExpr};
use dslx_values::bool_value;
use std::alloc::{AllocError, Global};
use xb_value::{Boxed, Seq};

/// Puts what an expression needs first, or finds its value at once.
pub(crate) fn begin_node<'a>(
    machine: &mut Machine<'a>,
    alloc: Global,
    expr: &'a Expr,
) -> Result<(), AllocError>
    ensures { OnOk result (shown machine.new ≡ node_begins (node_of expr.now) (shown machine.old)) }
{
    match &expr.node {
        Node::Number(number) => use_number(machine, alloc, number),
        Node::Bool(holds) => machine.give(Some(bool_value(*holds))),
        Node::Array(ty, elements, dots) => begin_array(machine, alloc, ty, elements, *dots),
        Node::Name(name) => use_name(machine, alloc, name),
        Node::Member(choice, member) => use_member(machine, alloc, &choice.name, &member.name),
        Node::Call(name, parametric_args, operands) => gather_parametric_args(
            machine,
            alloc,
            Vec::new(alloc),
            parametric_args.as_slice(),
            &name.name,
            operands.as_slice(),
        ),
        Node::Tuple(parts) => gather(
            machine,
            alloc,
            Vec::new(alloc),
            parts.as_slice(),
            ListMaker::Tuple,
        ),
        Node::Struct(name, fields, rest) => {
            begin_struct(machine, alloc, &name.name, fields.as_slice(), rest)
        }
        Node::Block(block) => machine.first_value(alloc, ValueTask::Block(block.get())),
        Node::If(test, yes, no) => machine.eval_then_value(
            alloc,
            test.get(),
            ValueTask::Choose(yes.get(), no.get()),
        ),
        Node::Match(expr, arms) => machine.eval_then_choice(
            alloc,
            expr.get(),
            ChoiceTask::Select(arms.as_slice()),
        ),
        Node::For(turns) => machine.eval_then_choice(
            alloc,
            &turns.get().start,
            ChoiceTask::StartLoop(turns.get()),
        ),
        Node::Index(array, place) => machine.eval_then_value(
            alloc,
            array.get(),
            ValueTask::FindRight(PairMaker::Index, place.get()),
        ),
        Node::Slice(expr, from, to) => machine.bound_then_value(
            alloc,
            from.get(),
            ValueTask::FindEnd(expr.get(), to.get()),
        ),
        Node::Part(expr, start, ty) => machine.type_then_value(
            alloc,
            ty.get(),
            ValueTask::TakePart(expr.get(), start.get()),
        ),
        Node::Field(expr, name) => machine.eval_then_value(
            alloc,
            expr.get(),
            ValueTask::MakeOne(OneMaker::Field(&name.name)),
        ),
        Node::Element(expr, _, number) => machine.eval_then_value(
            alloc,
            expr.get(),
            ValueTask::MakeOne(OneMaker::Element(*number)),
        ),
        Node::Prefix(op, expr) => machine.eval_then_value(
            alloc,
            expr.get(),
            ValueTask::MakeOne(OneMaker::Prefix(*op)),
        ),
        Node::Cast(expr, ty) => machine.type_then_value(
            alloc,
            ty.get(),
            ValueTask::Cast(expr.get()),
        ),
        Node::Binary(op, left, right) => machine.eval_then_value(
            alloc,
            left.get(),
            ValueTask::FindRight(PairMaker::Binary(*op), right.get()),
        ),
    }
}

/// Finds the type of an array, if one is written, and then its elements.
fn begin_array<'a>(
    machine: &mut Machine<'a>,
    alloc: Global,
    ty: &'a Option<Boxed<TypeExpr>>,
    elements: &'a Seq<Expr>,
    dots: bool,
) -> Result<(), AllocError>
    ensures { OnOk result (shown machine.new ≡ array_begins ty.now elements.now dots (shown machine.old)) }
{
    match ty {
        Some(ty) => machine.type_then_list(
            alloc,
            ty.get(),
            ListTask::Elements(elements.as_slice(), dots),
        ),
        None => gather(
            machine,
            alloc,
            Vec::new(alloc),
            elements.as_slice(),
            ListMaker::Array,
        ),
    }
}

/// Finds the type of a struct, and then its fields.
fn begin_struct<'a>(
    machine: &mut Machine<'a>,
    alloc: Global,
    name: &Name,
    fields: &'a [FieldValue],
    rest: &'a Option<Boxed<Expr>>,
) -> Result<(), AllocError>
    ensures { OnOk result (shown machine.new ≡ uses_struct name.now (doing (FindsFields fields.now rest.now ∷ []) (shown machine.old))) }
{
    machine.first_list(alloc, ListTask::FindFields(fields, rest))?;
    use_struct(machine, alloc, name)
}
