//! What the rules of blocks where an expression stands, of `if`, `match` and `for` make.

ghost use Rattle.std.specs.Prelude.{◌≡◌, None, drop, IfOk, OnOk};
ghost use Rattle.base.specs.Stacks.Tops.{top_or};
ghost use Rattle.dslx_node_actions.specs.Exprs.Braces.Braces.{arm, block_expr, for_expr, if_expr, loop_of, match_expr, without_loop};

use crate::exprs::atoms::{pop_boxed, pop_expr, push_expr};
use dslx_actions::{SemanticStacks, join, no_block, no_pattern, one_more};
use dslx_tree::{Arm, For, Node, TypeExpr};
use std::alloc::{AllocError, Global};
use xb_value::{Boxed, Seq};

/// A block where an expression stands.
pub fn block_expr(parts: &mut SemanticStacks, alloc: Global) -> Result<(), AllocError>
    ensures { OnOk result (parts.new ≡ block_expr parts.old) }
{
    let block = parts.blocks.pop_or(no_block(alloc));
    let span = block.span;
    let block = Boxed::new(alloc, block)?;
    push_expr(parts, span, Node::Block(block))
}

/// `if expr block else expr`
pub fn if_expr(parts: &mut SemanticStacks, alloc: Global) -> Result<(), AllocError>
    ensures { OnOk result (parts.new ≡ if_expr parts.old) }
{
    let token_spans = parts.take_token_spans(2);
    let (place, other) = pop_boxed(parts, alloc)?;
    let (_, condition) = pop_boxed(parts, alloc)?;
    let block = Boxed::new(alloc, parts.blocks.pop_or(no_block(alloc)))?;
    push_expr(
        parts,
        join(token_spans, place),
        Node::If(condition, block, other),
    )
}

/// `pattern | patterns => expr`
pub fn arm(parts: &mut SemanticStacks) -> Result<(), AllocError>
    ensures { OnOk result (parts.new ≡ arm parts.old) }
{
    parts.skip(1);
    let count = one_more(parts.counts.pop_or(0))?;
    let patterns = Seq::from_vec(parts.patterns.take_top(count)?);
    let (_, value) = pop_expr(parts);
    parts.arms.push(Arm { patterns, value })
}

/// `match expr { arms }`
pub fn match_expr(parts: &mut SemanticStacks, alloc: Global) -> Result<(), AllocError>
    ensures { OnOk result (parts.new ≡ match_expr parts.old) }
{
    let span = parts.take_token_spans(3);
    let (_, value) = pop_boxed(parts, alloc)?;
    let count = parts.counts.pop_or(0);
    let arms = Seq::from_vec(parts.arms.take_top(count)?);
    push_expr(parts, span, Node::Match(value, arms))
}

/// `for ( pattern , pattern ) : type in expr .. expr block ( expr )`
pub fn for_expr(parts: &mut SemanticStacks, alloc: Global) -> Result<(), AllocError>
    ensures { OnOk result (parts.new ≡ for_expr parts.old) }
{
    let span = parts.take_token_spans(8);
    let ty = take_annotation(parts, alloc)?;
    let body = take_loop(parts, alloc, ty);
    let body = Boxed::new(alloc, body)?;
    push_expr(parts, span, Node::For(body))
}

/// Takes a type that may be left out.
fn take_annotation(
    parts: &mut SemanticStacks,
    alloc: Global,
) -> Result<Option<Boxed<TypeExpr>>, AllocError>
    ensures ty { IfOk result (λ ty. ty ≡ top_or None parts.old.annotations) }
    ensures rest { OnOk result (parts.new ≡ record parts.old { annotations = drop 1 parts.old.annotations }) }
{
    match parts.annotations.pop_or(None) {
        Some(ty) => Ok(Some(Boxed::new(alloc, ty)?)),
        None => Ok(None),
    }
}

/// Takes the parts of a loop with this type.
fn take_loop(parts: &mut SemanticStacks, alloc: Global, ty: Option<Boxed<TypeExpr>>) -> For
    ensures taken { result ≡ loop_of ty parts.old }
    ensures rest { parts.new ≡ without_loop parts.old }
{
    let accumulator = parts.patterns.pop_or(no_pattern());
    let index = parts.patterns.pop_or(no_pattern());
    let body = parts.blocks.pop_or(no_block(alloc));
    let (_, start) = pop_expr(parts);
    let (_, to) = pop_expr(parts);
    let (_, from) = pop_expr(parts);
    For {
        index,
        accumulator,
        ty,
        from,
        to,
        body,
        start,
    }
}
