//! What the rules of statements and blocks make.

ghost use Rattle.std.specs.Prelude.{◌≡◌, OnOk};
ghost use Rattle.dslx_node_actions.specs.Items.Blocks.{bare_stmt, block, last_value, let_stmt};

use dslx_actions::{NOWHERE, SemanticStacks, no_expr, no_pattern};
use dslx_tree::{Block, Let, Stmt};
use std::alloc::{AllocError, Global};
use xb_value::{Boxed, Seq};

/// `let pattern : type = expr ;`
pub fn let_stmt(parts: &mut SemanticStacks, alloc: Global) -> Result<(), AllocError>
    ensures { OnOk result (parts.new ≡ let_stmt parts.old) }
{
    let span = parts.take_token_spans(3);
    let ty = match parts.annotations.pop_or(None) {
        Some(ty) => Some(Boxed::new(alloc, ty)?),
        None => None,
    };
    let pattern = parts.patterns.pop_or(no_pattern());
    let _place = parts.expr_spans.pop_or(NOWHERE);
    let value = parts.exprs.pop_or(no_expr());
    parts.statements.push(Stmt::Let(Let {
        span,
        pattern,
        ty,
        value,
    }))
}

/// `;` behind an expression
pub fn bare_stmt(parts: &mut SemanticStacks) -> Result<(), AllocError>
    ensures { OnOk result (parts.new ≡ bare_stmt parts.old) }
{
    parts.skip(1);
    let _place = parts.expr_spans.pop_or(NOWHERE);
    let value = parts.exprs.pop_or(no_expr());
    parts.statements.push(Stmt::Bare(value))
}

/// No statement stands behind the expression: it is the value of the block.
pub fn last_value(parts: &mut SemanticStacks) -> Result<(), AllocError>
    ensures { OnOk result (parts.new ≡ last_value parts.old) }
{
    let _place = parts.expr_spans.pop_or(NOWHERE);
    let value = parts.exprs.pop_or(no_expr());
    parts.values.push(Some(value))?;
    parts.counts.push(0)
}

/// `{ statements }`
pub fn block(parts: &mut SemanticStacks, alloc: Global) -> Result<(), AllocError>
    ensures { OnOk result (parts.new ≡ block parts.old) }
{
    let span = parts.take_token_spans(2);
    let value = match parts.values.pop_or(None) {
        Some(value) => Some(Boxed::new(alloc, value)?),
        None => None,
    };
    let count = parts.counts.pop_or(0);
    let statements = Seq::from_vec(parts.statements.take_top(count)?);
    parts.blocks.push(Block {
        span,
        statements,
        value,
    })
}
