//! Expressions.

use crate::shape::atoms::{add_array, add_call, add_new, add_tuple};
use crate::shape::branches::{add_for, add_if, add_match};
use crate::shape::operators::{
    add_binary, add_cast, add_element, add_field, add_index, add_part, add_prefix, add_slice,
};
use crate::shape::part::Parts;
use crate::shape::patterns::{add_bool, add_member, add_number};
use dslx_tree::{Expr, Node};

pub fn add_expr<'a>(parts: &mut Parts<'a>, expr: &'a Expr) {
    parts.place(expr.span);
    match &expr.node {
        Node::Number(number) => add_number(parts, number),
        Node::Bool(value) => add_bool(parts, *value),
        Node::Array(ty, elements, is_repeated) => {
            add_array(parts, ty, elements.as_slice(), *is_repeated);
        }
        Node::Name(name) => parts.word(name.as_str()),
        Node::Member(owner, member) => add_member(parts, owner, member),
        Node::Call(name, args, inner) => add_call(parts, name, args.as_slice(), inner.as_slice()),
        Node::Tuple(inner) => add_tuple(parts, inner.as_slice()),
        Node::Struct(name, fields, others) => add_new(parts, name, fields.as_slice(), others),
        Node::Block(block) => parts.block(block.get()),
        Node::If(condition, yes, no) => add_if(parts, condition.get(), yes.get(), no.get()),
        Node::Match(value, arms) => add_match(parts, value.get(), arms.as_slice()),
        Node::For(looped) => add_for(parts, looped.get()),
        Node::Index(value, at) => add_index(parts, value.get(), at.get()),
        Node::Slice(value, from, to) => add_slice(parts, value.get(), from.get(), to.get()),
        Node::Part(value, from, ty) => add_part(parts, value.get(), from.get(), ty.get()),
        Node::Field(value, field) => add_field(parts, value.get(), field),
        Node::Element(value, place, number) => add_element(parts, value.get(), *place, *number),
        Node::Prefix(prefix, operand) => add_prefix(parts, *prefix, operand.get()),
        Node::Cast(value, ty) => add_cast(parts, value.get(), ty.get()),
        Node::Binary(operator, left, right) => {
            add_binary(parts, *operator, left.get(), right.get());
        }
    }
}
