//! Loops.

ghost use Rattle.std.specs.Prelude.{◌≡◌, IfOk};
ghost use Rattle.dslx_core.specs.declared.expr.CoreExpr.{Loop as loop_core};
ghost use Rattle.dslx_core.specs.Machines.Machine.Steps.{loop_made};
ghost use Rattle.dslx_core_exprs.specs.Calls.Inner.Turns.{turns_of as the_turns};

use crate::alike::equal_type;
use crate::calls::held::with_both;
use crate::calls::turns::few_turns;
use dslx_core::lowering::LoweredExpr;
use dslx_core::{CoreExpr, Shape};
use dslx_meaning::SignedWord;
use std::alloc::{AllocError, Global};
use xb_bits::Bits;
use xb_value::Boxed;

/// A loop from one index to before another, if a turn gives what is accumulated its type again and there are fewer than 2^64 turns.
#[tactic(auto, using(crate::proofs::OnCalls::LoopLemmas::loop_none, crate::proofs::OnCalls::LoopLemmas::loop_some))]
pub fn lower_loop(
    alloc: Global,
    start: LoweredExpr,
    from: SignedWord,
    to: SignedWord,
    index: Shape,
    accumulator: Shape,
    body: LoweredExpr,
) -> Result<Option<LoweredExpr>, AllocError>
    ensures { IfOk result (λ e. e ≡ loop_made start from to index accumulator body) }
{
    let turns = turns_of(&start, &from, &to, &body);
    match with_both(turns, (start, index, accumulator, body)) {
        Some((turns, (start, index, accumulator, body))) => Ok(Some(repeated(
            alloc,
            turns,
            from.word,
            index,
            accumulator,
            body.core,
            start,
        )?)),
        None => Ok(None),
    }
}

/// How many turns there are, if a turn gives what is accumulated its type again and they are fewer than 2^64.
#[tactic(auto, using(crate::proofs::OnCalls::LoopLemmas::turns_alike, crate::proofs::OnCalls::LoopLemmas::turns_unlike))]
fn turns_of(
    start: &LoweredExpr,
    from: &SignedWord,
    to: &SignedWord,
    body: &LoweredExpr,
) -> Option<u64>
    ensures { result ≡ the_turns start.now from.now to.now body.now }
{
    if equal_type(&start.ty, &body.ty) {
        few_turns(from, to)
    } else {
        None
    }
}

/// So many turns with indices from a word on.
fn repeated(
    alloc: Global,
    turns: u64,
    from: Bits,
    index: Shape,
    accumulator: Shape,
    body: Boxed<CoreExpr>,
    start: LoweredExpr,
) -> Result<LoweredExpr, AllocError>
    ensures { IfOk result (λ e. e ≡ record { core = loop_core turns from index accumulator body start.core; ty = start.ty }) }
{
    let core = CoreExpr::Loop(turns, from, index, accumulator, body, start.core);
    Ok(LoweredExpr {
        core: Boxed::new(alloc, core)?,
        ty: start.ty,
    })
}
