//! Statements.

ghost use Rattle.std.specs.Prelude.{IfOk, map};
ghost use Rattle.dslx_meaning.specs.Rules.ControlRules.{statements_typing};
ghost use Rattle.dslx_check_facts.specs.Walks.{shown};
ghost use Rattle.dslx_check_leaves.specs.Typed as tree;
ghost use Rattle.dslx_check_leaves.specs.Walked.{JudgedStatements};

use crate::exprs::expr;
use crate::scopes::bind_pattern;
use crate::types::type_if;
use dslx_check_facts::{Facts, TypeEnv, Walk};
use dslx_check_leaves::{bare_value, use_channel};
use dslx_check_rules::control::control::{StatementTyping, bound_type, let_typing};
use dslx_check_rules::nodes::Spanned;
use dslx_tree::{Expr, Let, Stmt};
use std::alloc::AllocError;

/// Statements one after another: each sees what those before it bind.
#[cycle(parts)]
pub fn statements<'a>(
    f: &Facts<'a>,
    w: &mut Walk,
    s: &mut TypeEnv<'a>,
    all: &'a [Stmt],
    on_top: bool,
) -> Result<StatementTyping, AllocError>
    ensures { IfOk result (λ j. JudgedStatements f.now s.old s.new (shown w.old) (shown w.new) j (λ context. statements_typing (map tree.stmt_typed all.now) on_top context)) }
{
    let mut walked = StatementTyping::none();
    'statements: for i in 0..all.len() {
        let next = statement(f, w, s, &all[i], on_top)?;
        walked = walked.and(next);
    }
    Ok(walked)
}

#[cycle(parts)]
fn statement<'a>(
    f: &Facts<'a>,
    w: &mut Walk,
    s: &mut TypeEnv<'a>,
    statement: &'a Stmt,
    on_top: bool,
) -> Result<StatementTyping, AllocError>
    ensures { IfOk result (λ j. JudgedStatements f.now s.old s.new (shown w.old) (shown w.new) j (λ context. tree.stmt_typed statement.now on_top context)) }
{
    match statement {
        Stmt::Let(binding) => let_node(f, w, s, binding, on_top),
        Stmt::Bare(e) => bare_node(f, w, s, e, on_top),
    }
}

/// A `let`: its value, its type if one is written, and its pattern, whose names are in scope from here on.
#[cycle(parts)]
fn let_node<'a>(
    f: &Facts<'a>,
    w: &mut Walk,
    s: &mut TypeEnv<'a>,
    binding: &'a Let,
    on_top: bool,
) -> Result<StatementTyping, AllocError>
    ensures { IfOk result (λ j. JudgedStatements f.now s.old s.new (shown w.old) (shown w.new) j (tree.let_at binding.now on_top)) }
{
    let typing = expr(f, w, s, &binding.value, on_top)?;
    let written = type_if(f, w, s, &binding.ty)?;
    let ty = bound_type(&w.types, written, typing.ty);
    let bound = bind_pattern(f, w, s, ty, &binding.pattern)?;
    use_channel(s, &binding.value)?;
    let value = Spanned {
        span: binding.value.span,
        typing,
    };
    Ok(let_typing(&w.types, value, written, bound))
}

/// An expression as a statement.
#[cycle(parts)]
fn bare_node<'a>(
    f: &Facts<'a>,
    w: &mut Walk,
    s: &mut TypeEnv<'a>,
    e: &'a Expr,
    on_top: bool,
) -> Result<StatementTyping, AllocError>
    ensures { IfOk result (λ j. JudgedStatements f.now s.old s.new (shown w.old) (shown w.new) j (tree.bare_at e.now on_top)) }
{
    let value = expr(f, w, s, e, on_top)?;
    use_channel(s, e)?;
    let own = bare_value(&w.types, on_top, e, value);
    Ok(StatementTyping {
        faults: own.faults,
        size: own.size,
    })
}
