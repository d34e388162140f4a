//! Loops.

ghost use Rattle.std.specs.Prelude.{IfOk};
ghost use Rattle.dslx_check_facts.specs.Walks.{shown};
ghost use Rattle.dslx_check_leaves.specs.Typed as tree;
ghost use Rattle.dslx_check_leaves.specs.Walked.{JudgesPart};
ghost use Rattle.dslx_check_parts.specs.Loops.{JudgedHeads};

use crate::constants::constant;
use crate::control::block;
use crate::exprs::alone;
use crate::scopes::bind_pattern;
use crate::types::type_if;
use dslx_check_facts::{Facts, TypeEnv, Walk};
use dslx_check_leaves::HeldConstant;
use dslx_check_rules::control::control::{LoopParts, loop_typing};
use dslx_check_rules::nodes::Spanned;
use dslx_check_rules::{Typing, same_ends};
use dslx_tree::For;
use std::alloc::AllocError;
use xb_span::Span;

/// The ends of a loop's range, what it starts with, and its annotation.
pub(crate) struct LoopHeads {
    from: HeldConstant,
    to: HeldConstant,
    start: Typing,
    written: Option<Typing>,
}

impl Drop for LoopHeads {
    fn drop(self) {
        let LoopHeads {
            from: _,
            to: _,
            start: _,
            written: _,
        } = self;
    }
}

/// A loop: the ends of its range, what it starts with, its annotation, its two patterns, and its body, which sees what they bind.
#[cycle(parts)]
pub(crate) fn loop_node<'a>(
    f: &Facts<'a>,
    w: &mut Walk,
    s: &mut TypeEnv<'a>,
    span: Span,
    turns: &'a For,
) -> Result<Typing, AllocError>
    ensures { IfOk result (λ j. JudgesPart f.now s.old s.new (shown w.old) (shown w.new) j (tree.for_at span turns.now)) }
{
    let count = s.locals.len();
    let heads = loop_heads(f, w, s, turns)?;
    let ty = same_ends(
        &w.types,
        heads.from.constant.typing.ty,
        heads.to.constant.typing.ty,
    );
    let index = bind_pattern(f, w, s, ty, &turns.index)?;
    let accumulator = bind_pattern(f, w, s, heads.start.ty, &turns.accumulator)?;
    let inner = block(f, w, s, &turns.body, false)?;
    s.locals.keep(count);
    let body = Spanned {
        span: turns.body.span,
        typing: inner,
    };
    let parts = LoopParts {
        from: &heads.from.constant,
        to: &heads.to.constant,
        written: heads.written,
        start: heads.start,
        index,
        accumulator,
        body,
    };
    loop_typing(f.alloc, &mut w.types, span, &parts)
}

/// What stands in front of the patterns.
#[cycle(parts)]
fn loop_heads<'a>(
    f: &Facts<'a>,
    w: &mut Walk,
    s: &mut TypeEnv<'a>,
    turns: &'a For,
) -> Result<LoopHeads, AllocError>
    ensures { IfOk result (λ heads. JudgedHeads f.now s.old s.new (shown w.old) (shown w.new) heads turns.now) }
{
    let from = constant(f, w, s, &turns.from)?;
    let from = HeldConstant { constant: from };
    let to = constant(f, w, s, &turns.to)?;
    let to = HeldConstant { constant: to };
    let start = alone(f, w, s, &turns.start)?;
    let written = type_if(f, w, s, &turns.ty)?;
    Ok(LoopHeads {
        from,
        to,
        start,
        written,
    })
}
