//! What the rules of struct values make.

ghost use Rattle.std.specs.Prelude.{◌≡◌, OnOk};
ghost use Rattle.dslx_node_actions.specs.Exprs.Braces.Fields.{field_name, field_value, struct_expr};

use crate::exprs::atoms::push_expr;
use dslx_actions::{NOWHERE, SemanticStacks, join, no_expr, no_ident};
use dslx_tree::{FieldValue, Node};
use std::alloc::{AllocError, Global};
use xb_value::{Boxed, Seq};

/// `name : expr` in a struct value
pub fn field_value(parts: &mut SemanticStacks, alloc: Global) -> Result<(), AllocError>
    ensures { OnOk result (parts.new ≡ field_value parts.old) }
{
    parts.skip(1);
    let _place = parts.expr_spans.pop_or(NOWHERE);
    let value = Some(Boxed::new(alloc, parts.exprs.pop_or(no_expr()))?);
    let name = parts.idents.pop_or(no_ident(alloc));
    parts.field_values.push(FieldValue { name, value })
}

/// `name` in a struct value
pub fn field_name(parts: &mut SemanticStacks, alloc: Global) -> Result<(), AllocError>
    ensures { OnOk result (parts.new ≡ field_name parts.old) }
{
    let name = parts.idents.pop_or(no_ident(alloc));
    parts.field_values.push(FieldValue { name, value: None })
}

/// `{ fields }` behind a name
pub fn struct_expr(parts: &mut SemanticStacks, alloc: Global) -> Result<(), AllocError>
    ensures { OnOk result (parts.new ≡ struct_expr parts.old) }
{
    let token_spans = parts.take_token_spans(2);
    let others = match parts.values.pop_or(None) {
        Some(value) => Some(Boxed::new(alloc, value)?),
        None => None,
    };
    let count = parts.counts.pop_or(0);
    let fields = Seq::from_vec(parts.field_values.take_top(count)?);
    let ident = parts.idents.pop_or(no_ident(alloc));
    let span = join(ident.span, token_spans);
    push_expr(parts, span, Node::Struct(ident, fields, others))
}
