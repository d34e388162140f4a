//! What the rules of calls make.

ghost use Rattle.std.specs.Prelude.{◌≡◌, OnOk};
ghost use Rattle.dslx_node_actions.specs.Exprs.Atoms.Calls.{call_expr, call_with_args};

use crate::exprs::atoms::exprs::push_expr;
use dslx_actions::{SemanticStacks, join, no_ident, one_more};
use dslx_tree::Node;
use std::alloc::{AllocError, Global};
use xb_value::Seq;

/// `( exprs )` behind a name
pub fn call_expr(parts: &mut SemanticStacks, alloc: Global) -> Result<(), AllocError>
    ensures { OnOk result (parts.new ≡ call_expr parts.old) }
{
    let token_spans = parts.take_token_spans(2);
    let count = parts.counts.pop_or(0);
    parts.expr_spans.drop_top(count);
    let values = Seq::from_vec(parts.exprs.take_top(count)?);
    let ident = parts.idents.pop_or(no_ident(alloc));
    let span = join(ident.span, token_spans);
    push_expr(parts, span, Node::Call(ident, Seq::new(alloc), values))
}

/// `< args > ( exprs )` behind a name
pub fn call_with_args(parts: &mut SemanticStacks, alloc: Global) -> Result<(), AllocError>
    ensures { OnOk result (parts.new ≡ call_with_args parts.old) }
{
    let token_spans = parts.take_token_spans(4);
    let count = parts.counts.pop_or(0);
    let args = one_more(parts.counts.pop_or(0))?;
    parts.expr_spans.drop_top(count);
    let values = Seq::from_vec(parts.exprs.take_top(count)?);
    let args = Seq::from_vec(parts.args.take_top(args)?);
    let ident = parts.idents.pop_or(no_ident(alloc));
    let span = join(ident.span, token_spans);
    push_expr(parts, span, Node::Call(ident, args, values))
}
