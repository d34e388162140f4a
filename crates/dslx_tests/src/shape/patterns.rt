//! Patterns, and what they share with expressions.

use crate::shape::part::Parts;
use dslx_tree::{Ident, Number, Pattern, Shape};

pub fn add_pattern<'a>(parts: &mut Parts<'a>, pattern: &'a Pattern) {
    parts.place(pattern.span);
    match &pattern.shape {
        Shape::Wild => parts.word("_"),
        Shape::Bool(value) => add_bool(parts, *value),
        Shape::Number(number) => add_number(parts, number),
        Shape::Name(name) => parts.word(name.as_str()),
        Shape::Member(owner, member) => add_member(parts, owner, member),
        Shape::Tuple(inner) => add_tuple(parts, inner.as_slice()),
    }
}

fn add_tuple<'a>(parts: &mut Parts<'a>, inner: &'a [Pattern]) {
    parts.open("tuple");
    add_patterns(parts, inner);
    parts.close();
}

pub fn add_patterns<'a>(parts: &mut Parts<'a>, patterns: &'a [Pattern]) {
    for pattern in patterns {
        parts.pattern(pattern);
    }
}

pub fn add_bool<'a>(parts: &mut Parts<'a>, value: bool) {
    parts.word(if value { "true" } else { "false" });
}

/// Adds `T:-1`, or the digits alone.
pub fn add_number<'a>(parts: &mut Parts<'a>, number: &'a Number) {
    match &number.ty {
        Some(ty) => {
            parts.ty(ty.get());
            parts.tail(":");
        }
        None => parts.word(""),
    }
    parts.tail(if number.is_negative { "-" } else { "" });
    parts.digits(number.value);
}

pub fn add_member<'a>(parts: &mut Parts<'a>, owner: &'a Ident, member: &'a Ident) {
    parts.open("member");
    parts.name(owner);
    parts.name(member);
    parts.close();
}
