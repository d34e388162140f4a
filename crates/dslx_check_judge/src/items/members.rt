//! Members of enums.

ghost use Rattle.std.specs.Prelude.{◌≡◌, [], List, None, IfOk, if◌then◌else◌};
ghost use Rattle.base.specs.Lists.Prefix.{IsPrefix};
ghost use Rattle.dslx_meaning.specs.Rules.AggregateRules.{range_faults as the_range};
ghost use Rattle.dslx_meaning.specs.Rules.ItemRules as the;
ghost use Rattle.dslx_check_rules.specs.Interned.{HasRowIf, ItemNames, type_if};
ghost use Rattle.dslx_check_rules.specs.Seen.{seen};
ghost use Rattle.dslx_check_rules.specs.declared.table.row.TypeRow.{TypeRow as Row};
ghost use Rattle.dslx_check_facts.specs.Walks.{shown};
ghost use Rattle.dslx_check_leaves.specs.Walked.{WalksTo};
ghost use Rattle.dslx_check_judge.specs.Items.Lists.{IsValueAs, OfType, TypesElement, TypesList};
ghost use Rattle.dslx_check_judge.specs.Items.Inner.Kinds.{constant_of_base, number_of_base};

use dslx_check_declarations::{MemberSeen, NamesBefore, listed_name};
use dslx_check_facts::{Facts, TypeEnv, Walk, untyped_value};
use dslx_check_leaves::untyped_of;
use dslx_check_parts::constant;
use dslx_check_rules::nodes::aggregates::range_faults;
use dslx_check_rules::nodes::{ConstantTyping, both};
use dslx_check_rules::{Faults, TypeId, TypeTable, wanted_faults};
use dslx_meaning::{DslxValue, UntypedLiteral};
use dslx_tree::{Expr, Member};
use std::alloc::AllocError;
use xb_span::Span;

/// All members: their faults, and the value of each.
#[derive(Drop)]
pub(crate) struct MembersSeen {
    pub(crate) faults: Faults,
    pub(crate) values: Vec<Option<DslxValue>>,
}

/// The members of an enum over a base.
pub(crate) fn members_seen<'a>(
    f: &Facts<'a>,
    w: &mut Walk,
    s: &mut TypeEnv<'a>,
    base: Option<TypeId>,
    members: &'a [Member],
) -> Result<MembersSeen, AllocError>
    ensures { IfOk result (λ r. WalksTo f.now s.old s.new (shown w.old) (shown w.new)
        (OfType (shown w.old).rows base (λ t. TypesList IsValueAs r.faults r.values.items (λ context. the.members_found context t [] members.now) (λ context. the.member_values context t members.now)))) }
{
    let mut before = NamesBefore::new(f.alloc);
    let mut faults = Faults::none();
    let mut values = Vec::new(f.alloc);
    'members: for i in 0..members.len() {
        let member = &members[i];
        let is_before = before.has(&member.name.name);
        let named = listed_name(is_before, &member.name);
        let MemberSeen { faults: own, value } = member_seen(f, w, s, base, member)?;
        let one = named.and(own);
        faults = faults.and(one);
        values.push(value)?;
        before.put(&member.name.name)?;
    }
    Ok(MembersSeen { faults, values })
}

/// A member's value: a number without a type is of the base, and anything else is a constant.
fn member_seen<'a>(
    f: &Facts<'a>,
    w: &mut Walk,
    s: &mut TypeEnv<'a>,
    base: Option<TypeId>,
    member: &'a Member,
) -> Result<MemberSeen, AllocError>
    ensures { IfOk result (λ m. WalksTo f.now s.old s.new (shown w.old) (shown w.new)
        (OfType (shown w.old).rows base (λ t. TypesElement IsValueAs m.faults m.value (λ context. (the.member_constant context t member.now).found) (λ context. (the.member_constant context t member.now).value)))) }
{
    match untyped_of(&member.value) {
        Some(number) => number_member(&w.types, member.value.span, base, number),
        None => constant_member(f, w, s, base, &member.value),
    }
}

/// A number without a type. In a base past the limit on widths it has no value.
fn number_member(
    types: &TypeTable,
    span: Span,
    base: Option<TypeId>,
    number: UntypedLiteral,
) -> Result<MemberSeen, AllocError>
    ensures { IfOk result (λ m. (names : ItemNames) (later : List Row) → IsPrefix types.now later → HasRowIf types.now base
        → (m.faults ≡ seen (the_range span (type_if names later base) number)) × (m.value ≡ number_of_base (type_if names later base) number)) }
{
    let faults = range_faults(types, span, base, number);
    let value = value_in_base(types, base, number)?;
    Ok(MemberSeen { faults, value })
}

fn value_in_base(
    types: &TypeTable,
    base: Option<TypeId>,
    number: UntypedLiteral,
) -> Result<Option<DslxValue>, AllocError>
    ensures { IfOk result (λ v. (names : ItemNames) (later : List Row) → IsPrefix types.now later → HasRowIf types.now base → v ≡ number_of_base (type_if names later base) number) }
{
    match base {
        None => Ok(None),
        Some(base) => untyped_value(types, base, number),
    }
}

/// A constant as a member's value.
fn constant_member<'a>(
    f: &Facts<'a>,
    w: &mut Walk,
    s: &mut TypeEnv<'a>,
    base: Option<TypeId>,
    e: &'a Expr,
) -> Result<MemberSeen, AllocError>
    ensures { IfOk result (λ m. WalksTo f.now s.old s.new (shown w.old) (shown w.new)
        (OfType (shown w.old).rows base (λ t. TypesElement IsValueAs m.faults m.value (λ context. (constant_of_base context t e.now).found) (λ context. (constant_of_base context t e.now).value)))) }
{
    let ConstantTyping {
        typing,
        untyped: _,
        value,
    } = constant(f, w, s, e)?;
    let wrong = wanted_faults(&w.types, e.span, base, typing.ty);
    let is_fine = both(base.is_some(), wrong.is_empty());
    Ok(MemberSeen {
        faults: typing.faults.and(wrong),
        value: if_fine(is_fine, value),
    })
}

/// The value, if it is one.
pub(crate) fn if_fine(is_fine: bool, value: Option<DslxValue>) -> Option<DslxValue>
    ensures { result ≡ (if is_fine then value else None) }
{
    if is_fine { value } else { None }
}
