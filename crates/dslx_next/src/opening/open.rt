//! The steps of expressions that stand as statements or as the whole values of `let`s.

ghost use Rattle.std.specs.Prelude.{◌≡◌, List, IfOk};
ghost use Rattle.dslx_core.specs.Lowering.Functions.{CoreInstance};
ghost use Rattle.dslx_core.specs.Lowering.Steps.{member_in};
ghost use Rattle.dslx_core.specs.Lowering.Trees.{lower_expression};
ghost use Rattle.dslx_meaning.specs.Activation.{act_of as the_act};
ghost use Rattle.dslx_meaning.specs.Lists.{and_then};
ghost use Rattle.dslx_meaning.specs.Names.Sites.Acts.{act_shown};
ghost use Rattle.dslx_next.specs.Opening.Opened.{computing, receive_if_opened, receive_opened, send_if_opened, send_opened};
ghost use Rattle.dslx_next.specs.Opening.Works.{HasTable, BodyMakes, opened_at, outer_at, scope_at};

use crate::opening::opened::{OpenStep, compute, receive, send};
use crate::opening::work::{Conditional, NextScope, lower, lower_conditional, lower_of_type};
use base::texts::Name;
use dslx_config::members::member_there;
use dslx_core::lowering::CoreMember;
use dslx_instance::tasks::BodyWork;
use dslx_meaning::names::sites::{Act, act_of};
use dslx_scope_names::patterns::BodyScope;
use dslx_tree::Expr;
use std::alloc::{AllocError, Global};
use xb_value::Boxed;

/// What an expression is lowered to as a statement or as the whole value of a `let`: a step that binds nothing yet.
pub fn open_step<'a>(
    alloc: Global,
    known: NextScope<'a>,
    work: BodyWork<'a>,
    expr: &'a Expr,
) -> Result<Option<(OpenStep, BodyWork<'a>)>, AllocError>
    requires has_table { HasTable known work }
    ensures { IfOk result (λ o. BodyMakes known.entry work.entry (opened_at known.entry work.entry (the_act expr.now) expr.now) o) }
{
    open_act(alloc, known, work, act_of(expr), expr)
}

fn open_act<'a>(
    alloc: Global,
    known: NextScope<'a>,
    work: BodyWork<'a>,
    act: Act<'a>,
    expr: &'a Expr,
) -> Result<Option<(OpenStep, BodyWork<'a>)>, AllocError>
    requires has_table { HasTable known work }
    ensures { IfOk result (λ o. BodyMakes known.entry work.entry (opened_at known.entry work.entry (act_shown act.entry) expr.now) o) }
{
    match act {
        Act::Compute => open_compute(alloc, known, work, expr),
        Act::Receive(name) => open_receive(alloc, known, work, name),
        Act::ReceiveIf(name, condition, other) => {
            open_receive_if(alloc, known, work, name, condition, other)
        }
        Act::Send(name, word) => open_send(alloc, known, work, name, word),
        Act::SendIf(name, condition, word) => {
            open_send_if(alloc, known, work, name, condition, word)
        }
    }
}

fn open_compute<'a>(
    alloc: Global,
    known: NextScope<'a>,
    work: BodyWork<'a>,
    expr: &'a Expr,
) -> Result<Option<(OpenStep, BodyWork<'a>)>, AllocError>
    requires has_table { HasTable known work }
    ensures { IfOk result (λ o. BodyMakes known.entry work.entry (λ table. and_then (lower_expression expr.now (scope_at known.entry work.entry table)) computing) o) }
{
    match lower(alloc, known, work, expr)? {
        Some((value, work)) => Ok(Some((compute(value), work))),
        None => Ok(None),
    }
}

#[tactic(auto, using(crate::proofs::OnOpening::Sequels::nothing_added))]
fn open_receive<'a>(
    alloc: Global,
    known: NextScope<'a>,
    work: BodyWork<'a>,
    name: &'a Name,
) -> Result<Option<(OpenStep, BodyWork<'a>)>, AllocError>
    requires has_table { HasTable known work }
    ensures { IfOk result (λ o. BodyMakes known.entry work.entry (λ table. receive_opened (member_in (outer_at known.entry work.entry table) known.entry.ends.now name.now)) o) }
{
    match member_at(alloc, known, &work, name)? {
        Some(member) => Ok(Some((receive(alloc, member.into_inner(), None)?, work))),
        None => Ok(None),
    }
}

fn open_receive_if<'a>(
    alloc: Global,
    known: NextScope<'a>,
    work: BodyWork<'a>,
    name: &'a Name,
    condition: &'a Expr,
    other: &'a Expr,
) -> Result<Option<(OpenStep, BodyWork<'a>)>, AllocError>
    requires has_table { HasTable known work }
    ensures { IfOk result (λ o. BodyMakes known.entry work.entry (λ table. receive_if_opened (member_in (outer_at known.entry work.entry table) known.entry.ends.now name.now) condition.now other.now (scope_at known.entry work.entry table)) o) }
{
    let Some(member) = member_at(alloc, known, &work, name)? else {
        return Ok(None);
    };
    match lower_conditional(alloc, known, work, condition, other, &member.get().word)? {
        Some((both, work)) => {
            let Conditional { condition, value } = both;
            let parts = (condition.core, value.core);
            Ok(Some((receive(alloc, member.into_inner(), Some(parts))?, work)))
        }
        None => Ok(None),
    }
}

fn open_send<'a>(
    alloc: Global,
    known: NextScope<'a>,
    work: BodyWork<'a>,
    name: &'a Name,
    word: &'a Expr,
) -> Result<Option<(OpenStep, BodyWork<'a>)>, AllocError>
    requires has_table { HasTable known work }
    ensures { IfOk result (λ o. BodyMakes known.entry work.entry (λ table. send_opened (member_in (outer_at known.entry work.entry table) known.entry.ends.now name.now) word.now (scope_at known.entry work.entry table)) o) }
{
    let Some(member) = member_at(alloc, known, &work, name)? else {
        return Ok(None);
    };
    match lower_of_type(alloc, known, work, word, &member.get().word)? {
        Some((word, work)) => Ok(Some((send(member.into_inner(), None, word), work))),
        None => Ok(None),
    }
}

fn open_send_if<'a>(
    alloc: Global,
    known: NextScope<'a>,
    work: BodyWork<'a>,
    name: &'a Name,
    condition: &'a Expr,
    word: &'a Expr,
) -> Result<Option<(OpenStep, BodyWork<'a>)>, AllocError>
    requires has_table { HasTable known work }
    ensures { IfOk result (λ o. BodyMakes known.entry work.entry (λ table. send_if_opened (member_in (outer_at known.entry work.entry table) known.entry.ends.now name.now) condition.now word.now (scope_at known.entry work.entry table)) o) }
{
    let Some(member) = member_at(alloc, known, &work, name)? else {
        return Ok(None);
    };
    match lower_conditional(alloc, known, work, condition, word, &member.get().word)? {
        Some((both, work)) => {
            let Conditional { condition, value } = both;
            Ok(Some((send(member.into_inner(), Some(condition.core), value), work)))
        }
        None => Ok(None),
    }
}

/// The member of this name, in a box: letting it go is one call.
fn member_at<'b>(
    alloc: Global,
    known: NextScope<'b>,
    work: &'b BodyWork<'b>,
    name: &Name,
) -> Result<Option<Boxed<CoreMember>>, AllocError>
    ensures { IfOk result (λ m. (table : List CoreInstance) → m ≡ member_in (outer_at known.entry work.now table) known.entry.ends.now name.now) }
{
    let body = BodyScope {
        text: known.text,
        parametric_args: work.given.as_slice(),
    };
    match member_there(alloc, body, known.ends, name)? {
        Some(member) => Ok(Some(Boxed::new(alloc, member)?)),
        None => Ok(None),
    }
}
