//! Expressions, and values that stand alone.

ghost use Rattle.std.specs.Prelude.{IfOk};
ghost use Rattle.dslx_meaning.specs.Rules.TypeEnvs as env;
ghost use Rattle.dslx_check_leaves.specs.Named.Constants.{expr_typed};
ghost use Rattle.dslx_check_facts.specs.Walks.{shown};
ghost use Rattle.dslx_check_leaves.specs.Typed as tree;
ghost use Rattle.dslx_check_leaves.specs.Walked.{JudgesPart, PlacedOne};

use crate::aggregates::{element, field, index, structure, tuple};
use crate::arrays::array;
use crate::calls::call;
use crate::control::{block, if_node};
use crate::loops::loop_node;
use crate::matches::match_node;
use crate::numbers::{bool_value, number_node};
use crate::operators::{binary, cast, part, prefix, slice};
use dslx_check_facts::{Facts, TypeEnv, Walk};
use dslx_check_leaves::{member_node, name_node};
use dslx_check_rules::Typing;
use dslx_check_rules::nodes::Spanned;
use dslx_check_rules::nodes::aggregates::no_token;
use dslx_tree::{Expr, Node};
use std::alloc::AllocError;

/// An expression, where effects may stand or not.
#[cycle(parts)]
pub fn expr<'a>(
    f: &Facts<'a>,
    w: &mut Walk,
    s: &mut TypeEnv<'a>,
    e: &'a Expr,
    on_top: bool,
) -> Result<Typing, AllocError>
    ensures { IfOk result (λ j. JudgesPart f.now s.old s.new (shown w.old) (shown w.new) j (λ context. (expr_typed e.now).1 on_top context)) }
{
    match &e.node {
        Node::Number(number) => number_node(f, w, s, e.span, number),
        Node::Bool(_) => bool_value(f, w, s, e.span),
        Node::Array(ty, elements, dots) => array(f, w, s, e.span, ty, elements.as_slice(), *dots),
        Node::Name(name) => name_node(f, w, s, e.span, name),
        Node::Member(choice, member) => member_node(f, w, s, e.span, choice, member),
        Node::Call(name, args, operands) => call(
            f,
            w,
            s,
            e.span,
            name,
            args.as_slice(),
            operands.as_slice(),
            on_top,
        ),
        Node::Tuple(parts) => tuple(f, w, s, e.span, parts.as_slice()),
        Node::Struct(name, fields, others) => {
            structure(f, w, s, e.span, name, fields.as_slice(), others)
        }
        Node::Block(inner) => block(f, w, s, inner.get(), false),
        Node::If(test, yes, no) => if_node(f, w, s, e.span, test.get(), yes.get(), no.get()),
        Node::Match(value, arms) => match_node(f, w, s, e.span, value.get(), arms.as_slice()),
        Node::For(turns) => loop_node(f, w, s, e.span, turns.get()),
        Node::Index(whole, place) => index(f, w, s, e.span, whole.get(), place.get()),
        Node::Slice(whole, from, to) => slice(f, w, s, e.span, whole.get(), from.get(), to.get()),
        Node::Part(whole, start, ty) => part(f, w, s, e.span, whole.get(), start.get(), ty.get()),
        Node::Field(whole, name) => field(f, w, s, e.span, whole.get(), name),
        Node::Element(whole, _, place) => element(f, w, s, e.span, whole.get(), *place),
        Node::Prefix(_, operand) => prefix(f, w, s, e.span, operand.get()),
        Node::Cast(value, ty) => cast(f, w, s, e.span, value.get(), ty.get()),
        Node::Binary(op, left, right) => binary(f, w, s, e.span, *op, left.get(), right.get()),
    }
}

/// A value that stands alone.
#[cycle(parts)]
pub fn alone<'a>(
    f: &Facts<'a>,
    w: &mut Walk,
    s: &mut TypeEnv<'a>,
    e: &'a Expr,
) -> Result<Typing, AllocError>
    ensures { IfOk result (λ j. JudgesPart f.now s.old s.new (shown w.old) (shown w.new) j (λ context. env.alone context (expr_typed e.now))) }
{
    let value = expr(f, w, s, e, false)?;
    Ok(no_token(&w.types, e.span, value))
}

/// The same beside its span.
#[cycle(parts)]
pub fn placed<'a>(
    f: &Facts<'a>,
    w: &mut Walk,
    s: &mut TypeEnv<'a>,
    e: &'a Expr,
) -> Result<Spanned, AllocError>
    ensures { IfOk result (λ p. PlacedOne f.now s.old s.new (shown w.old) (shown w.new) p (λ context. tree.placed context e.now)) }
{
    let typing = alone(f, w, s, e)?;
    Ok(Spanned {
        span: e.span,
        typing,
    })
}
