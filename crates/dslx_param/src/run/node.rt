//! What is to be done for an expression.

ghost use Rattle.std.specs.Prelude.{◌≡◌, List, Some, IfOk};
ghost use Rattle.dslx_meaning.specs.Activation.{node_of};
ghost use Rattle.dslx_meaning.specs.Lists.{where_true};
ghost use Rattle.dslx_core.specs.Lowering.Functions.{CoreInstance};
ghost use Rattle.dslx_core.specs.Machines.Machine.Steps.{node_begins};
ghost use Rattle.dslx_instance.specs.Tasks.Shown.{body_shown, instance_env_of};

use crate::run::atom::{give_bool, give_member, give_name, give_number};
use crate::run::form::{
    first_block, first_choice, first_loop, first_match, first_struct, make_of_one, make_of_two,
};
use dslx_instance::tasks::{LastMaker, OpenBody, PartsMaker};
use dslx_instance_parts::{begin_array, gather};
use dslx_tree::{Expr, Module, Node};
use std::alloc::{AllocError, Global};

/// An expression is to be lowered: an atom is lowered at once, the rest becomes tasks; whether there is such a step.
pub(crate) fn begin_node<'a>(
    body: &mut OpenBody<'a>,
    alloc: Global,
    text: &'a Module,
    expr: &'a Expr,
) -> Result<bool, AllocError>
    ensures { IfOk result (λ is. (table : List CoreInstance) → where_true is (Some (body_shown body.new)) ≡ node_begins (node_of expr.now) (instance_env_of text.now table) (body_shown body.old)) }
{
    match &expr.node {
        Node::Number(number) => give_number(body, alloc, text, number),
        Node::Bool(holds) => give_bool(body, alloc, *holds),
        Node::Array(ty, elements, dots) => {
            begin_array(body, alloc, text, ty, elements.as_slice(), *dots)
        }
        Node::Name(name) => give_name(body, alloc, text, name),
        Node::Member(choice, member) => {
            give_member(body, alloc, text, &choice.name, &member.name)
        }
        Node::Call(name, parametric_args, operands) => gather(
            body,
            alloc,
            text,
            Vec::new(alloc),
            operands.as_slice(),
            PartsMaker::Call(&name.name, parametric_args.as_slice()),
        ),
        Node::Tuple(parts) => gather(
            body,
            alloc,
            text,
            Vec::new(alloc),
            parts.as_slice(),
            PartsMaker::Tuple,
        ),
        Node::Struct(name, fields, rest) => {
            first_struct(body, alloc, text, &name.name, fields.as_slice(), rest)
        }
        Node::Block(block) => first_block(body, alloc, block.get()),
        Node::If(test, yes, no) => first_choice(body, alloc, test.get(), yes.get(), no.get()),
        Node::Match(value, arms) => first_match(body, alloc, value.get(), arms.as_slice()),
        Node::For(turns) => first_loop(body, alloc, turns.get()),
        Node::Index(array, place) => {
            make_of_two(body, alloc, array.get(), place.get(), LastMaker::Index)
        }
        Node::Slice(value, from, to) => make_of_one(
            body,
            alloc,
            value.get(),
            LastMaker::Slice(from.get(), to.get()),
        ),
        Node::Part(value, start, ty) => make_of_two(
            body,
            alloc,
            value.get(),
            start.get(),
            LastMaker::Part(ty.get()),
        ),
        Node::Field(value, name) => {
            make_of_one(body, alloc, value.get(), LastMaker::Field(&name.name))
        }
        Node::Element(value, _, number) => {
            make_of_one(body, alloc, value.get(), LastMaker::Element(*number))
        }
        Node::Prefix(op, value) => { make_of_one(body, alloc, value.get(), LastMaker::Prefix(*op)) }
        Node::Cast(value, ty) => make_of_one(body, alloc, value.get(), LastMaker::Cast(ty.get())),
        Node::Binary(op, left, right) => {
            make_of_two(body, alloc, left.get(), right.get(), LastMaker::Binary(*op))
        }
    }
}
