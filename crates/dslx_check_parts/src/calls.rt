//! Calls.

ghost use Rattle.std.specs.Prelude.{IfOk};
ghost use Rattle.dslx_meaning.specs.Callees.{kind_of_call};
ghost use Rattle.dslx_check_facts.specs.Walks.{shown};
ghost use Rattle.dslx_check_leaves.specs.Typed as tree;
ghost use Rattle.dslx_check_leaves.specs.Walked.{JudgesPart};

use crate::arguments::{all_given, all_placed};
use crate::builtins::builtin;
use crate::effects::effect_if_on_top;
use dslx_check_facts::{Facts, TypeEnv, Walk};
use dslx_check_rules::Typing;
use dslx_check_uses::{CallForm, call_of, form_of};
use dslx_meaning::names::callee_of;
use dslx_tree::{Arg, Expr, Ident};
use std::alloc::AllocError;
use xb_span::Span;

/// A call, where effects may stand or not.
#[cycle(parts)]
pub(crate) fn call<'a>(
    f: &Facts<'a>,
    w: &mut Walk,
    s: &mut TypeEnv<'a>,
    span: Span,
    name: &'a Ident,
    args: &'a [Arg],
    operands: &'a [Expr],
    on_top: bool,
) -> Result<Typing, AllocError>
    ensures { IfOk result (λ j. JudgesPart f.now s.old s.new (shown w.old) (shown w.new) j (tree.call_at (kind_of_call name.now.name) span name.now args.now operands.now on_top)) }
{
    let callee = callee_of(&name.name);
    match form_of(callee) {
        CallForm::Effect(direction, count) => {
            effect_if_on_top(f, w, s, span, direction, count, args, operands, on_top)
        }
        CallForm::Function => function_call(f, w, s, span, name, args, operands),
        CallForm::Builtin => builtin(f, w, s, span, callee, args, operands),
    }
}

/// A call of a function of the text.
#[cycle(parts)]
fn function_call<'a>(
    f: &Facts<'a>,
    w: &mut Walk,
    s: &mut TypeEnv<'a>,
    span: Span,
    name: &'a Ident,
    args: &'a [Arg],
    operands: &'a [Expr],
) -> Result<Typing, AllocError>
    ensures { IfOk result (λ j. JudgesPart f.now s.old s.new (shown w.old) (shown w.new) j (tree.function_at span name.now args.now operands.now)) }
{
    let given = all_given(f, w, s, args)?;
    let parts = all_placed(f, w, s, operands)?;
    call_of(f, w, s, span, name, given.as_slice(), parts.as_slice())
}
