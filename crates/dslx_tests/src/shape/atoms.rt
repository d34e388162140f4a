//! Calls, tuples, arrays and struct values.

use crate::shape::part::Parts;
use dslx_tree::{Arg, Expr, FieldValue, Ident, TypeExpr};
use xb_value::Boxed;

/// Adds `(list : T a b ...)`.
pub fn add_array<'a>(
    parts: &mut Parts<'a>,
    ty: &'a Option<Boxed<TypeExpr>>,
    elements: &'a [Expr],
    is_repeated: bool,
) {
    parts.open("list");
    if let Some(ty) = ty {
        parts.word(":");
        parts.ty(ty.get());
    }
    add_exprs(parts, elements);
    parts.tail(if is_repeated { " ..." } else { "" });
    parts.close();
}

fn add_exprs<'a>(parts: &mut Parts<'a>, exprs: &'a [Expr]) {
    for expr in exprs {
        parts.expr(expr);
    }
}

/// Adds `(call f < N 4 > a b)`.
pub fn add_call<'a>(parts: &mut Parts<'a>, name: &'a Ident, args: &'a [Arg], operands: &'a [Expr]) {
    parts.open("call");
    parts.name(name);
    add_args(parts, args);
    add_exprs(parts, operands);
    parts.close();
}

/// Adds `< N 4 >`, or nothing where there is no argument.
pub fn add_args<'a>(parts: &mut Parts<'a>, args: &'a [Arg]) {
    if args.is_empty() {
        return;
    }
    parts.word("<");
    for arg in args {
        add_arg(parts, arg);
    }
    parts.word(">");
}

pub fn add_arg<'a>(parts: &mut Parts<'a>, arg: &'a Arg) {
    parts.place(arg.span);
    parts.expr(&arg.value);
}

pub fn add_tuple<'a>(parts: &mut Parts<'a>, inner: &'a [Expr]) {
    parts.open("tuple");
    add_exprs(parts, inner);
    parts.close();
}

/// Adds `(new S x = a y .. s)`.
pub fn add_new<'a>(
    parts: &mut Parts<'a>,
    name: &'a Ident,
    fields: &'a [FieldValue],
    others: &'a Option<Boxed<Expr>>,
) {
    parts.open("new");
    parts.name(name);
    for field in fields {
        add_field_value(parts, field);
    }
    if let Some(others) = others {
        parts.word("..");
        parts.expr(others.get());
    }
    parts.close();
}

fn add_field_value<'a>(parts: &mut Parts<'a>, field: &'a FieldValue) {
    parts.name(&field.name);
    if let Some(value) = &field.value {
        parts.word("=");
        parts.expr(value.get());
    }
}
