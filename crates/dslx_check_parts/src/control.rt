//! Choices and blocks.

ghost use Rattle.std.specs.Prelude.{IfOk};
ghost use Rattle.std.specs.Option.{option_map};
ghost use Rattle.dslx_meaning.specs.Rules.ControlRules as the;
ghost use Rattle.dslx_check_leaves.specs.Named.Constants.{expr_typed};
ghost use Rattle.dslx_check_facts.specs.Walks.{shown};
ghost use Rattle.dslx_check_leaves.specs.Typed as tree;
ghost use Rattle.dslx_check_leaves.specs.Walked.{JudgesPart};

use crate::exprs::alone;
use crate::sequences::statements;
use dslx_check_facts::{Facts, TypeEnv, Walk};
use dslx_check_rules::Typing;
use dslx_check_rules::control::control::{block_typing, if_typing, no_value};
use dslx_check_rules::nodes::Spanned;
use dslx_tree::{Block, Expr};
use std::alloc::AllocError;
use xb_span::Span;
use xb_value::Boxed;

/// A choice: a condition and what it comes to either way.
#[cycle(parts)]
pub(crate) fn if_node<'a>(
    f: &Facts<'a>,
    w: &mut Walk,
    s: &mut TypeEnv<'a>,
    span: Span,
    test: &'a Expr,
    yes: &'a Block,
    no: &'a Expr,
) -> Result<Typing, AllocError>
    ensures { IfOk result (λ j. JudgesPart f.now s.old s.new (shown w.old) (shown w.new) j (λ context. the.if_typing span context (expr_typed test.now) (tree.block_typed yes.now) (expr_typed no.now))) }
{
    let own = alone(f, w, s, test)?;
    let first = block(f, w, s, yes, false)?;
    let second = alone(f, w, s, no)?;
    let condition = Spanned {
        span: test.span,
        typing: own,
    };
    Ok(if_typing(&w.types, span, condition, first, second))
}

/// A block, at the top of `next` or elsewhere. What it binds is in scope up to its end.
#[cycle(parts)]
pub fn block<'a>(
    f: &Facts<'a>,
    w: &mut Walk,
    s: &mut TypeEnv<'a>,
    b: &'a Block,
    on_top: bool,
) -> Result<Typing, AllocError>
    ensures { IfOk result (λ j. JudgesPart f.now s.old s.new (shown w.old) (shown w.new) j (λ context. (tree.block_typed b.now).1 on_top context)) }
{
    let names = s.locals.len();
    let used = s.used.len();
    let walked = statements(f, w, s, b.statements.as_slice(), on_top)?;
    let last = last_value(f, w, s, &b.value)?;
    s.locals.keep(names);
    s.used.keep(used);
    Ok(block_typing(&w.types, b.span, walked, last))
}

/// What stands last in a block; without it the value is `()`.
#[cycle(parts)]
fn last_value<'a>(
    f: &Facts<'a>,
    w: &mut Walk,
    s: &mut TypeEnv<'a>,
    e: &'a Option<Boxed<Expr>>,
) -> Result<Typing, AllocError>
    ensures { IfOk result (λ j. JudgesPart f.now s.old s.new (shown w.old) (shown w.new) j (λ context. the.last_typing context (option_map expr_typed e.now))) }
{
    match e {
        None => no_value(&mut w.types, f.alloc),
        Some(e) => alone(f, w, s, e.get()),
    }
}
