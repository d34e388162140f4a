//! Matches and their arms.

ghost use Rattle.std.specs.Prelude.{IfOk, map};
ghost use Rattle.dslx_meaning.specs.Rules.ControlRules.{match_typing};
ghost use Rattle.dslx_check_leaves.specs.Named.Constants.{expr_typed};
ghost use Rattle.dslx_check_facts.specs.Walks.{shown};
ghost use Rattle.dslx_check_leaves.specs.Fits.Typed.{arm_typed, pattern_typed};
ghost use Rattle.dslx_check_leaves.specs.Walked.{JudgedAlternatives, JudgedArm, JudgedArms, JudgesPart};
ghost use Rattle.dslx_check_parts.specs.Parts.{BindsAlternatives};

use crate::exprs::alone;
use crate::patterns::pattern;
use dslx_check_facts::{Bindings, Facts, TypeEnv, Walk};
use dslx_check_leaves::fits::match_of;
use dslx_check_leaves::{Names, bind_last_first};
use dslx_check_rules::control::matches::{AlternativesTyping, ArmTyping};
use dslx_check_rules::{TypeId, Typing};
use dslx_tree::{Arm, Expr, Pattern};
use std::alloc::AllocError;
use xb_span::Span;

/// A match: its value, and then its arms.
#[cycle(parts)]
pub(crate) fn match_node<'a>(
    f: &Facts<'a>,
    w: &mut Walk,
    s: &mut TypeEnv<'a>,
    span: Span,
    value: &'a Expr,
    arms: &'a [Arm],
) -> Result<Typing, AllocError>
    ensures { IfOk result (λ j. JudgesPart f.now s.old s.new (shown w.old) (shown w.new) j (λ context. match_typing span context (expr_typed value.now) (map arm_typed arms.now))) }
{
    let of = alone(f, w, s, value)?;
    let all = all_arms(f, w, s, of.ty, arms)?;
    match_of(f, w, s, span, of, arms, all.as_slice())
}

#[cycle(parts)]
fn all_arms<'a>(
    f: &Facts<'a>,
    w: &mut Walk,
    s: &mut TypeEnv<'a>,
    ty: Option<TypeId>,
    arms: &'a [Arm],
) -> Result<Vec<ArmTyping>, AllocError>
    ensures { IfOk result (λ all. JudgedArms f.now s.old s.new (shown w.old) (shown w.new) all.items ty (map arm_typed arms.now)) }
{
    let mut all = Vec::new(f.alloc);
    'arms: for i in 0..arms.len() {
        let one = one_arm(f, w, s, ty, &arms[i])?;
        all.push(one)?;
    }
    Ok(all)
}

/// An arm: its value sees what its alternatives bind.
#[cycle(parts)]
fn one_arm<'a>(
    f: &Facts<'a>,
    w: &mut Walk,
    s: &mut TypeEnv<'a>,
    ty: Option<TypeId>,
    arm: &'a Arm,
) -> Result<ArmTyping, AllocError>
    ensures { IfOk result (λ one. JudgedArm f.now s.old s.new (shown w.old) (shown w.new) one ty (arm_typed arm.now)) }
{
    let count = s.locals.len();
    let alternatives = bind_alternatives(f, w, s, ty, arm.patterns.as_slice())?;
    let value = alone(f, w, s, &arm.value)?;
    s.locals.keep(count);
    Ok(ArmTyping {
        count: arm.patterns.len(),
        alternatives,
        value,
    })
}

/// The alternatives of an arm, whose names are in scope from here on, those of the first one last.
#[cycle(parts)]
fn bind_alternatives<'a>(
    f: &Facts<'a>,
    w: &mut Walk,
    s: &mut TypeEnv<'a>,
    ty: Option<TypeId>,
    patterns: &'a [Pattern],
) -> Result<AlternativesTyping, AllocError>
    ensures { IfOk result (λ j. BindsAlternatives f.now s.old s.new (shown w.old) (shown w.new) j ty (map pattern_typed patterns.now)) }
{
    let mut bound = Vec::new(f.alloc);
    let all = alternatives(f, w, s, ty, patterns, &mut bound)?;
    bind_last_first(s, bound)?;
    Ok(all)
}

/// Alternatives one after another, each from what is in scope around the arm.
#[cycle(parts)]
fn alternatives<'a>(
    f: &Facts<'a>,
    w: &mut Walk,
    s: &mut TypeEnv<'a>,
    ty: Option<TypeId>,
    patterns: &'a [Pattern],
    bound: &mut Vec<Names<'a>>,
) -> Result<AlternativesTyping, AllocError>
    ensures { IfOk result (λ j. JudgedAlternatives f.now s.old s.new (shown w.old) (shown w.new) j ty bound.old.items bound.new.items (map pattern_typed patterns.now)) }
{
    let mut all = AlternativesTyping::none();
    'patterns: for i in 0..patterns.len() {
        let mut names = Bindings::new(f.alloc);
        let next = pattern(f, w, s, true, ty, &patterns[i], &mut names)?;
        let binds = names.len() != 0;
        bound.push(names)?;
        all = all.and(next, binds);
    }
    Ok(all)
}
