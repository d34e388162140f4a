//! Tokens and effects' channels.

ghost use Rattle.std.specs.Prelude.{IfOk, map};
ghost use Rattle.dslx_meaning.specs.Rules.CallRules as the;
ghost use Rattle.dslx_check_leaves.specs.Named.Constants.{expr_typed};
ghost use Rattle.dslx_check_facts.specs.Walks.{shown};
ghost use Rattle.dslx_check_leaves.specs.Typed as tree;
ghost use Rattle.dslx_check_leaves.specs.Walked.{JudgedAll, JudgedChannel, JudgesPart, PlacedOne};

use crate::exprs::{alone, expr};
use dslx_check_facts::{Facts, TypeEnv, Walk};
use dslx_check_rules::Typing;
use dslx_check_rules::control::effects::{ChannelTyping, held_typing, token_typing};
use dslx_check_rules::nodes::Spanned;
use dslx_check_uses::{channel_named, name_of};
use dslx_tree::Expr;
use std::alloc::AllocError;

/// What stands where a token has to.
#[cycle(parts)]
pub fn token<'a>(
    f: &Facts<'a>,
    w: &mut Walk,
    s: &mut TypeEnv<'a>,
    e: &'a Expr,
) -> Result<Typing, AllocError>
    ensures { IfOk result (λ j. JudgesPart f.now s.old s.new (shown w.old) (shown w.new) j (λ context. the.token_typing context (expr_typed e.now))) }
{
    let value = expr(f, w, s, e, false)?;
    Ok(token_typing(&w.types, e.span, value))
}

/// What stands where a token may.
#[cycle(parts)]
pub fn held<'a>(
    f: &Facts<'a>,
    w: &mut Walk,
    s: &mut TypeEnv<'a>,
    e: &'a Expr,
) -> Result<Typing, AllocError>
    ensures { IfOk result (λ j. JudgesPart f.now s.old s.new (shown w.old) (shown w.new) j (λ context. the.held_typing context (expr_typed e.now))) }
{
    let value = expr(f, w, s, e, false)?;
    Ok(held_typing(&w.types, e.span, value))
}

#[cycle(parts)]
fn placed_token<'a>(
    f: &Facts<'a>,
    w: &mut Walk,
    s: &mut TypeEnv<'a>,
    e: &'a Expr,
) -> Result<Spanned, AllocError>
    ensures { IfOk result (λ p. PlacedOne f.now s.old s.new (shown w.old) (shown w.new) p (λ context. tree.placed_token context e.now)) }
{
    let typing = token(f, w, s, e)?;
    Ok(Spanned {
        span: e.span,
        typing,
    })
}

/// Tokens one after another.
#[cycle(parts)]
pub(crate) fn all_tokens<'a>(
    f: &Facts<'a>,
    w: &mut Walk,
    s: &mut TypeEnv<'a>,
    operands: &'a [Expr],
) -> Result<Vec<Spanned>, AllocError>
    ensures { IfOk result (λ all. JudgedAll f.now s.old s.new (shown w.old) (shown w.new) all.items (λ context. map (tree.placed_token context) operands.now)) }
{
    let mut all = Vec::new(f.alloc);
    'operands: for i in 0..operands.len() {
        let one = placed_token(f, w, s, &operands[i])?;
        all.push(one)?;
    }
    Ok(all)
}

/// An effect's channel: a name that stands for an end, or anything else, which is none.
#[cycle(parts)]
pub fn channel<'a>(
    f: &Facts<'a>,
    w: &mut Walk,
    s: &mut TypeEnv<'a>,
    e: &'a Expr,
) -> Result<ChannelTyping, AllocError>
    ensures { IfOk result (λ c. JudgedChannel f.now s.old s.new (shown w.old) (shown w.new) c (λ context. the.channel_seen context (expr_typed e.now))) }
{
    match name_of(e) {
        Some(name) => Ok(channel_named(s, e.span, name)),
        None => {
            let typing = alone(f, w, s, e)?;
            Ok(ChannelTyping {
                typing,
                direction: None,
                word: None,
                has_site: false,
            })
        }
    }
}
