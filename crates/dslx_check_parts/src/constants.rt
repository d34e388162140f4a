//! Constants, and what counts.

ghost use Rattle.std.specs.Prelude.{IfOk};
ghost use Rattle.dslx_meaning.specs.Rules.ConstantRules as the;
ghost use Rattle.dslx_check_leaves.specs.Named.Constants.{expr_typed};
ghost use Rattle.dslx_check_facts.specs.Walks.{shown};
ghost use Rattle.dslx_check_leaves.specs.Walked.{JudgedConstant, JudgedCount};

use crate::exprs::alone;
use dslx_check_facts::{Facts, TypeEnv, Walk};
use dslx_check_leaves::named::{constant_typing, untyped_constant};
use dslx_check_leaves::{HeldConstant, untyped_of};
use dslx_check_rules::nodes::counts::count_typing;
use dslx_check_rules::nodes::{ConstantTyping, CountTyping};
use dslx_tree::Expr;
use std::alloc::AllocError;

/// A constant.
#[cycle(parts)]
pub fn constant<'a>(
    f: &Facts<'a>,
    w: &mut Walk,
    s: &mut TypeEnv<'a>,
    e: &'a Expr,
) -> Result<ConstantTyping, AllocError>
    ensures { IfOk result (λ c. JudgedConstant f.now s.old s.new (shown w.old) (shown w.new) c (λ context. the.constant_of context (expr_typed e.now))) }
{
    let from = w.reached.len();
    let missing = w.missing.len();
    let inner = alone(f, w, s, e)?;
    constant_typing(f, w, s, from, missing, e, inner)
}

/// A constant that may be a number without a type.
#[cycle(parts)]
pub fn constant_or_untyped<'a>(
    f: &Facts<'a>,
    w: &mut Walk,
    s: &mut TypeEnv<'a>,
    e: &'a Expr,
) -> Result<HeldConstant, AllocError>
    ensures { IfOk result (λ held. JudgedConstant f.now s.old s.new (shown w.old) (shown w.new) held.constant (λ context. the.constant_or_untyped context (expr_typed e.now))) }
{
    match untyped_of(e) {
        Some(number) => Ok(HeldConstant {
            constant: untyped_constant(number),
        }),
        None => {
            let value = constant(f, w, s, e)?;
            Ok(HeldConstant { constant: value })
        }
    }
}

/// A width, a size or a depth.
#[cycle(parts)]
pub fn count<'a>(
    f: &Facts<'a>,
    w: &mut Walk,
    s: &mut TypeEnv<'a>,
    e: &'a Expr,
) -> Result<CountTyping, AllocError>
    ensures { IfOk result (λ n. JudgedCount f.now s.old s.new (shown w.old) (shown w.new) n (λ context. the.count_of context (expr_typed e.now))) }
{
    let held = constant_or_untyped(f, w, s, e)?;
    Ok(count_typing(&w.types, e.span, &held.constant))
}
