//! `match` from its value and its arms.

ghost use Rattle.std.specs.Prelude.{IfOk, OnOk};
ghost use Rattle.dslx_check_facts.specs.Walks.{OnlyMisses, shown};
ghost use Rattle.dslx_check_leaves.specs.Fits.Matched.{Exhausted, MatchFrom};

use crate::fits::fits::is_exhaustive;
use dslx_check_facts::{Facts, TypeEnv, Walk};
use dslx_check_rules::control::matches::{ArmTyping, are_fine, last_is_sure, match_typing};
use dslx_check_rules::{TypeId, Typing};
use dslx_tree::Arm;
use std::alloc::AllocError;
use xb_span::Span;

/// A `match` from its value and its arms.
pub fn match_of(
    f: &Facts,
    w: &mut Walk,
    s: &TypeEnv,
    span: Span,
    value: Typing,
    arms: &[Arm],
    all: &[ArmTyping],
) -> Result<Typing, AllocError>
    ensures { IfOk result (MatchFrom f.now s.now (shown w.old) (shown w.new) span value all.now arms.now) }
{
    let is_exhaustive = exhausts(f, w, s, value.ty, arms, all)?;
    Ok(match_typing(&w.types, span, value, all, is_exhaustive))
}

/// Whether the arms match each value, where that is asked: where the value has a type, and all patterns are known and break nothing.
fn exhausts(
    f: &Facts,
    w: &mut Walk,
    s: &TypeEnv,
    ty: Option<TypeId>,
    arms: &[Arm],
    all: &[ArmTyping],
) -> Result<bool, AllocError>
    ensures misses { OnOk result (OnlyMisses (shown w.old) (shown w.new)) }
    ensures is { IfOk result (Exhausted f.now s.now (shown w.old) (shown w.new) ty all.now arms.now) }
{
    match ty {
        Some(ty) => if are_fine(all) {
            is_exhaustive(f, w, s, ty, arms, last_is_sure(all))
        } else {
            Ok(true)
        },
        None => Ok(true),
    }
}
