//! Calls of builtins.

ghost use Rattle.std.specs.Prelude.{◌≡◌, [], IfOk, map};
ghost use Rattle.dslx_meaning.specs.Rules.CallRules as the;
ghost use Rattle.dslx_meaning.specs.Rules.CallRules.{wrong_call};
ghost use Rattle.dslx_meaning.specs.Rules.TypeEnvs.{all_alone};
ghost use Rattle.dslx_meaning.specs.Names.Called.{kind_of};
ghost use Rattle.dslx_check_leaves.specs.Named.Constants.{expr_typed};
ghost use Rattle.dslx_check_facts.specs.Walks.{shown};
ghost use Rattle.dslx_check_leaves.specs.Typed as tree;
ghost use Rattle.dslx_check_leaves.specs.Walked.{JudgesPart};
ghost use Rattle.dslx_check_parts.specs.Builtins.{builtin_by_form, builtin_form_of};

use crate::arguments::{all_given, all_placed};
use crate::tokens::all_tokens;
use dslx_check_facts::{Facts, TypeEnv, Walk};
use dslx_check_rules::control::calls::{counting_typing, updating_typing};
use dslx_check_rules::control::effects::joining_typing;
use dslx_check_rules::{Faults, Typing};
use dslx_check_uses::refused_call;
use dslx_meaning::names::Callee;
use dslx_tree::{Arg, Expr};
use std::alloc::AllocError;
use xb_span::Span;

/// What a builtin does with its operands: it joins them, replaces an element, or counts bits of one.
#[derive(Clone, Copy)]
enum BuiltinForm {
    Join,
    Update,
    Count(bool),
}

/// The form of a builtin; whatever is no builtin has one, too, which nothing asks for.
fn builtin_form(callee: Callee) -> BuiltinForm
    ensures { result ≡ builtin_form_of (kind_of callee) }
{
    match callee {
        Callee::Join => BuiltinForm::Join,
        Callee::Update => BuiltinForm::Update,
        Callee::CountLeading | Callee::CountTrailing | Callee::Reverse => BuiltinForm::Count(false),
        _ => BuiltinForm::Count(true),
    }
}

/// A call of a builtin, which has no parametric arguments.
#[cycle(parts)]
pub(crate) fn builtin<'a>(
    f: &Facts<'a>,
    w: &mut Walk,
    s: &mut TypeEnv<'a>,
    span: Span,
    callee: Callee,
    args: &'a [Arg],
    operands: &'a [Expr],
) -> Result<Typing, AllocError>
    ensures { IfOk result (λ j. JudgesPart f.now s.old s.new (shown w.old) (shown w.new) j (λ context. tree.builtin_by (kind_of callee) span context (map (tree.given_at context) args.now) (map expr_typed operands.now))) }
{
    match args {
        [] => builtin_of(f, w, s, span, builtin_form(callee), operands),
        [_, ..] => refused(f, w, s, span, args, operands),
    }
}

#[cycle(parts)]
fn builtin_of<'a>(
    f: &Facts<'a>,
    w: &mut Walk,
    s: &mut TypeEnv<'a>,
    span: Span,
    form: BuiltinForm,
    operands: &'a [Expr],
) -> Result<Typing, AllocError>
    ensures { IfOk result (λ j. JudgesPart f.now s.old s.new (shown w.old) (shown w.new) j (λ context. builtin_by_form form span operands.now context)) }
{
    match form {
        BuiltinForm::Join => joining(f, w, s, span, operands),
        BuiltinForm::Update => updating(f, w, s, span, operands),
        BuiltinForm::Count(gives_bool) => counting(f, w, s, span, gives_bool, operands),
    }
}

/// A call that is refused, whatever its operands are.
#[cycle(parts)]
fn refused<'a>(
    f: &Facts<'a>,
    w: &mut Walk,
    s: &mut TypeEnv<'a>,
    span: Span,
    args: &'a [Arg],
    operands: &'a [Expr],
) -> Result<Typing, AllocError>
    ensures { IfOk result (λ j. JudgesPart f.now s.old s.new (shown w.old) (shown w.new) j (λ context. wrong_call span (map (tree.given_at context) args.now) (all_alone context (map expr_typed operands.now)) [])) }
{
    let given = all_given(f, w, s, args)?;
    let parts = all_placed(f, w, s, operands)?;
    Ok(refused_call(
        &w.types,
        span,
        given.as_slice(),
        parts.as_slice(),
        Faults::none(),
    ))
}

/// Tokens are joined.
#[cycle(parts)]
fn joining<'a>(
    f: &Facts<'a>,
    w: &mut Walk,
    s: &mut TypeEnv<'a>,
    span: Span,
    operands: &'a [Expr],
) -> Result<Typing, AllocError>
    ensures { IfOk result (λ j. JudgesPart f.now s.old s.new (shown w.old) (shown w.new) j (λ context. the.joining span context (map expr_typed operands.now))) }
{
    let tokens = all_tokens(f, w, s, operands)?;
    joining_typing(&mut w.types, span, tokens.as_slice())
}

/// A builtin of one operand, which gives a bool or what it is given.
#[cycle(parts)]
fn counting<'a>(
    f: &Facts<'a>,
    w: &mut Walk,
    s: &mut TypeEnv<'a>,
    span: Span,
    gives_bool: bool,
    operands: &'a [Expr],
) -> Result<Typing, AllocError>
    ensures { IfOk result (λ j. JudgesPart f.now s.old s.new (shown w.old) (shown w.new) j (tree.counting_at gives_bool span operands.now)) }
{
    let parts = all_placed(f, w, s, operands)?;
    counting_typing(&mut w.types, span, parts.as_slice(), gives_bool)
}

/// An array with one element replaced.
#[cycle(parts)]
fn updating<'a>(
    f: &Facts<'a>,
    w: &mut Walk,
    s: &mut TypeEnv<'a>,
    span: Span,
    operands: &'a [Expr],
) -> Result<Typing, AllocError>
    ensures { IfOk result (λ j. JudgesPart f.now s.old s.new (shown w.old) (shown w.new) j (λ context. the.updating span (map expr_typed operands.now) (all_alone context (map expr_typed operands.now)))) }
{
    let parts = all_placed(f, w, s, operands)?;
    Ok(updating_typing(&w.types, span, parts.as_slice()))
}
