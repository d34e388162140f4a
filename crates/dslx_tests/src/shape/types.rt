//! Types.

use crate::shape::part::Parts;
use dslx_tree::{Expr, TypeExpr, TypeNode};

pub fn add_type<'a>(parts: &mut Parts<'a>, ty: &'a TypeExpr) {
    parts.place(ty.span);
    match &ty.node {
        TypeNode::Bits(is_signed, width) => add_bits(parts, *is_signed, *width),
        TypeNode::Wide(is_signed, width) => add_wide(parts, *is_signed, width.get()),
        TypeNode::Bool => parts.word("bool"),
        TypeNode::Name(name) => parts.word(name.as_str()),
        TypeNode::Tuple(inner) => add_tuple(parts, inner.as_slice()),
        TypeNode::Array(element, size) => add_array(parts, element.get(), size.get()),
    }
}

fn add_bits<'a>(parts: &mut Parts<'a>, is_signed: bool, width: u8) {
    parts.word(if is_signed { "s" } else { "u" });
    parts.digits(u128::from(width));
}

fn add_wide<'a>(parts: &mut Parts<'a>, is_signed: bool, width: &'a Expr) {
    parts.open(if is_signed { "sN" } else { "uN" });
    parts.expr(width);
    parts.close();
}

fn add_tuple<'a>(parts: &mut Parts<'a>, inner: &'a [TypeExpr]) {
    parts.open("tuple");
    for ty in inner {
        parts.ty(ty);
    }
    parts.close();
}

fn add_array<'a>(parts: &mut Parts<'a>, element: &'a TypeExpr, size: &'a Expr) {
    parts.open("array");
    parts.ty(element);
    parts.expr(size);
    parts.close();
}
