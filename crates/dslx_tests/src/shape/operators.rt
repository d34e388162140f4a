//! Operators, and what stands behind a value.

use crate::shape::part::Parts;
use dslx_tree::{Binary, Expr, Ident, Prefix, TypeExpr};
use xb_span::Span;

pub fn add_binary<'a>(parts: &mut Parts<'a>, operator: Binary, left: &'a Expr, right: &'a Expr) {
    parts.open(sign(operator));
    parts.expr(left);
    parts.expr(right);
    parts.close();
}

/// How the operator is written.
fn sign(operator: Binary) -> &'static str {
    match operator {
        Binary::Mul => "*",
        Binary::Div => "/",
        Binary::Rem => "%",
        Binary::Add => "+",
        Binary::Sub => "-",
        Binary::Concat => "++",
        Binary::Shl => "<<",
        Binary::Shr => ">>",
        Binary::And => "&",
        Binary::Xor => "^",
        Binary::Or => "|",
        Binary::Eq => "==",
        Binary::Ne => "!=",
        Binary::Lt => "<",
        Binary::Le => "<=",
        Binary::Gt => ">",
        Binary::Ge => ">=",
        Binary::Both => "&&",
        Binary::Either => "||",
    }
}

/// Adds `(minus e)` or `(not e)`.
pub fn add_prefix<'a>(parts: &mut Parts<'a>, prefix: Prefix, operand: &'a Expr) {
    parts.open(match prefix {
        Prefix::Minus => "minus",
        Prefix::Not => "not",
    });
    parts.expr(operand);
    parts.close();
}

/// Adds `(as e T)`.
pub fn add_cast<'a>(parts: &mut Parts<'a>, value: &'a Expr, ty: &'a TypeExpr) {
    parts.open("as");
    parts.expr(value);
    parts.ty(ty);
    parts.close();
}

/// Adds `(index e i)`.
pub fn add_index<'a>(parts: &mut Parts<'a>, value: &'a Expr, at: &'a Expr) {
    parts.open("index");
    parts.expr(value);
    parts.expr(at);
    parts.close();
}

/// Adds `(slice e a b)`.
pub fn add_slice<'a>(parts: &mut Parts<'a>, value: &'a Expr, from: &'a Expr, to: &'a Expr) {
    parts.open("slice");
    parts.expr(value);
    parts.expr(from);
    parts.expr(to);
    parts.close();
}

/// Adds `(part e i T)`.
pub fn add_part<'a>(parts: &mut Parts<'a>, value: &'a Expr, from: &'a Expr, ty: &'a TypeExpr) {
    parts.open("part");
    parts.expr(value);
    parts.expr(from);
    parts.ty(ty);
    parts.close();
}

/// Adds `(field e x)`.
pub fn add_field<'a>(parts: &mut Parts<'a>, value: &'a Expr, field: &'a Ident) {
    parts.open("field");
    parts.expr(value);
    parts.name(field);
    parts.close();
}

/// Adds `(element e 0)`.
pub fn add_element<'a>(parts: &mut Parts<'a>, value: &'a Expr, place: Span, number: u128) {
    parts.open("element");
    parts.expr(value);
    parts.place(place);
    parts.word("");
    parts.digits(number);
    parts.close();
}
