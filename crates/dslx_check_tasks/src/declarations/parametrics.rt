//! Types and defaults of parametrics.

ghost use Rattle.std.specs.Prelude.{◌≡◌, [], None, Some, IfOk};
ghost use Rattle.std.specs.Option.{option_copied};
ghost use Rattle.dslx_meaning.specs.Rules.ModuleRules as the;
ghost use Rattle.dslx_check_rules.specs.Seen.{seen};
ghost use Rattle.dslx_check_facts.specs.Walks.{shown};
ghost use Rattle.dslx_check_leaves.specs.Walked.{JudgesPart, WalksTo};
ghost use Rattle.dslx_check_tasks.specs.Declarations.Inner.Foreign.{GivesDefault, GivesParameter, TypesTree, default_tree, parameter_in};

use dslx_check_declarations::there;
use dslx_check_facts::{DefaultThere, Facts, ForeignSeen, TypeEnv, TypingThere, Walk};
use dslx_check_parts::{constant, inner_type};
use dslx_check_rules::nodes::ConstantTyping;
use dslx_check_rules::{Faults, Typing};
use dslx_tree::{Expr, Parametric};
use std::alloc::AllocError;

/// The type of the next parametric.
pub(crate) fn parameter_seen<'a>(
    f: &Facts<'a>,
    w: &mut Walk,
    s: &mut TypeEnv<'a>,
    next: Option<&'a Parametric>,
) -> Result<ForeignSeen, AllocError>
    ensures { IfOk result (λ there. GivesParameter f.now s.old s.new (shown w.old) (shown w.new) there (option_copied next.entry)) }
{
    let typing = parameter_typing(f, w, s, next)?;
    let seen = reaching(f, w, typing)?;
    Ok(ForeignSeen::Parameter(seen))
}

/// The type of a parametric, if there is one.
fn parameter_typing<'a>(
    f: &Facts<'a>,
    w: &mut Walk,
    s: &mut TypeEnv<'a>,
    next: Option<&'a Parametric>,
) -> Result<Typing, AllocError>
    ensures { IfOk result (λ j. JudgesPart f.now s.old s.new (shown w.old) (shown w.new) j (λ context. parameter_in context (option_copied next.entry))) }
{
    match next {
        None => Ok(untyped()),
        Some(parametric) => inner_type(f, w, s, &parametric.ty),
    }
}

/// The default of the next parametric.
pub(crate) fn default_seen<'a>(
    f: &Facts<'a>,
    w: &mut Walk,
    s: &mut TypeEnv<'a>,
    next: Option<&'a Parametric>,
) -> Result<ForeignSeen, AllocError>
    ensures { IfOk result (λ there. GivesDefault f.now s.old s.new (shown w.old) (shown w.new) there (option_copied next.entry)) }
{
    let ConstantTyping {
        typing,
        untyped: _,
        value,
    } = default_typing(f, w, s, default_of(next))?;
    let typing = reaching(f, w, typing)?;
    Ok(ForeignSeen::Default(DefaultThere { typing, value }))
}

fn default_of<'a>(next: Option<&'a Parametric>) -> Option<&'a Expr>
    ensures { option_copied result ≡ default_tree (option_copied next.entry) }
{
    match next {
        None => None,
        Some(parametric) => default_in(parametric),
    }
}

fn default_in<'a>(parametric: &'a Parametric) -> Option<&'a Expr>
    ensures { option_copied result ≡ parametric.now.default }
{
    match &parametric.default {
        None => None,
        Some(e) => Some(e),
    }
}

/// A default, if there is one.
fn default_typing<'a>(
    f: &Facts<'a>,
    w: &mut Walk,
    s: &mut TypeEnv<'a>,
    default: Option<&'a Expr>,
) -> Result<ConstantTyping, AllocError>
    ensures { IfOk result (λ c. WalksTo f.now s.old s.new (shown w.old) (shown w.new) (TypesTree c (λ context. the.default_if context (option_copied default.entry)))) }
{
    match default {
        None => Ok(ConstantTyping {
            typing: untyped(),
            untyped: None,
            value: None,
        }),
        Some(e) => constant(f, w, s, e),
    }
}

/// A part that isn't there.
fn untyped() -> Typing
    ensures { (result.ty ≡ None) × (result.faults ≡ seen []) × (result.size ≡ Some 1) }
{
    Typing {
        ty: None,
        faults: Faults::none(),
        size: Some(1),
    }
}

/// The typing of a part, with all that the walk reached.
fn reaching(f: &Facts, w: &Walk, typing: Typing) -> Result<TypingThere, AllocError>
    ensures { IfOk result (λ t. (t.ty ≡ typing.ty) × (t.faults ≡ typing.faults) × (t.reached.items ≡ (shown w.now).reached)) }
{
    let mut seen = there(f.alloc, typing);
    seen.reached.extend_from_slice(w.reached.as_slice())?;
    Ok(seen)
}
