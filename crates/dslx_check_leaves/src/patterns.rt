//! Patterns without parts, and what patterns bind.

ghost use Rattle.std.specs.Prelude.{◌≡◌, ◌++◌, List, [], IfOk, OnOk};
ghost use Rattle.std.specs.Option.{option_copied};
ghost use Rattle.dslx_meaning.specs.Rules.PatternRules as the;
ghost use Rattle.dslx_meaning.specs.Rules.TypeEnvs.{GlobalEnv};
ghost use Rattle.dslx_check_rules.specs.Interned.{ItemNames, type_if};
ghost use Rattle.dslx_check_rules.specs.declared.table.row.TypeRow.{TypeRow};
ghost use Rattle.dslx_check_facts.specs.Known.{FactsHold, item_names};
ghost use Rattle.dslx_check_facts.specs.Walks.{OnlyMisses, WalkShown, shown};
ghost use Rattle.dslx_check_leaves.specs.Typed as tree;
ghost use Rattle.dslx_check_leaves.specs.Walked.{JudgedPattern, all_bound};

use base::texts::Name;
use dslx_check_facts::{
    Bindings, Facts, TypeEnv, Walk, constant_type, local_name_faults, member_typing, member_value,
};
use dslx_check_rules::control::patterns::{self, PatternTyping};
use dslx_check_rules::{Faults, TypeId, rule};
use dslx_meaning::{BitKind, DslxValue};
use dslx_tree::Ident;
use std::alloc::AllocError;
use xb_span::Span;

/// The names that patterns bind.
pub type Names<'a> = Bindings<'a, Option<TypeId>>;

/// `true` or `false`.
pub fn bool_pattern<'a>(
    f: &Facts<'a>,
    w: &mut Walk,
    s: &mut TypeEnv<'a>,
    span: Span,
    may_fail: bool,
    ty: Option<TypeId>,
    names: &mut Names<'a>,
) -> Result<PatternTyping, AllocError>
    ensures { IfOk result (λ j. JudgedPattern f.now s.old s.new (shown w.old) (shown w.new) j ty names.old names.new (tree.bool_pattern_at span may_fail)) }
{
    let bit = w.types.bits(BitKind {
        signed: false,
        width: 1,
    })?;
    let own = w.unlimited(Some(bit), Faults::none(), Some(1));
    Ok(patterns::value_pattern(&w.types, span, may_fail, ty, own, true))
}

/// Whether it is a type.
pub fn has_type(ty: Option<TypeId>) -> bool
    ensures { (items : ItemNames) (later : List TypeRow) → result ≡ the.is_there (type_if items later ty) }
{
    match ty {
        Some(_) => true,
        None => false,
    }
}

/// A name: a constant of the text, or one that is bound.
pub fn name_pattern<'a>(
    f: &Facts<'a>,
    w: &mut Walk,
    s: &mut TypeEnv<'a>,
    span: Span,
    may_fail: bool,
    ty: Option<TypeId>,
    name: &'a Name,
    names: &mut Names<'a>,
) -> Result<PatternTyping, AllocError>
    ensures { IfOk result (λ j. JudgedPattern f.now s.old s.new (shown w.old) (shown w.new) j ty names.old names.new (tree.name_pattern_at span may_fail name.now)) }
{
    match f.constant(name) {
        Some((item, _)) => constant_pattern(f, w, s, span, may_fail, ty, item, name, names),
        None => {
            let is_before = names.has(name);
            let faults = local_name_faults(f, is_before, span, name);
            names.bind(name, ty)?;
            Ok(patterns::bound_pattern(faults))
        }
    }
}

/// A constant of the text, which has this number.
fn constant_pattern<'a>(
    f: &Facts<'a>,
    w: &mut Walk,
    s: &mut TypeEnv<'a>,
    span: Span,
    may_fail: bool,
    ty: Option<TypeId>,
    item: u32,
    name: &'a Name,
    names: &mut Names<'a>,
) -> Result<PatternTyping, AllocError>
    ensures { IfOk result (λ j. JudgedPattern f.now s.old s.new (shown w.old) (shown w.new) j ty names.old names.new (tree.constant_pattern_at span may_fail ((item_names f.now).item item))) }
{
    let is_cyclic = f.is_cyclic(s.owner, item);
    let own_type = constant_type(f, w, item)?;
    let faults = Faults::breaks_if(is_cyclic, rule::NO_ITEM_REACHES_ITSELF, span);
    let is_known = has_type(own_type);
    let own = w.unlimited(own_type, faults, Some(1));
    Ok(patterns::value_pattern(&w.types, span, may_fail, ty, own, is_known))
}

/// A member of an enum.
pub fn member_pattern<'a>(
    f: &Facts<'a>,
    w: &mut Walk,
    s: &mut TypeEnv<'a>,
    span: Span,
    may_fail: bool,
    ty: Option<TypeId>,
    choice: &Ident,
    member: &Ident,
    names: &mut Names<'a>,
) -> Result<PatternTyping, AllocError>
    ensures { IfOk result (λ j. JudgedPattern f.now s.old s.new (shown w.old) (shown w.new) j ty names.old names.new (tree.member_pattern_at span may_fail choice.now member.now)) }
{
    let own = member_typing(f, w, s, choice, member)?;
    let is_known = has_value(f, w, choice, member)?;
    Ok(patterns::value_pattern(&w.types, span, may_fail, ty, own, is_known))
}

/// Whether a member of an enum has a value.
fn has_value(f: &Facts, w: &mut Walk, choice: &Ident, member: &Ident) -> Result<bool, AllocError>
    ensures misses { OnOk result (OnlyMisses (shown w.old) (shown w.new)) }
    ensures is { IfOk result (λ b. (known : GlobalEnv) (later : WalkShown) → FactsHold f.now later known → (shown w.new).missing ≡ []
        → b ≡ the.is_there (known.items.member choice.now.name member.now.name)) }
{
    match f.choice(&choice.name) {
        None => Ok(false),
        Some((item, declared)) => {
            let value = member_value(f, w, item, declared, &member.name)?;
            Ok(is_there(value))
        }
    }
}

fn is_there(value: Option<&DslxValue>) -> bool
    ensures { result ≡ the.is_there (option_copied value.entry) }
{
    match value {
        Some(_) => true,
        None => false,
    }
}

/// Binds the names of all alternatives, those of the first one last.
pub fn bind_last_first<'a>(s: &mut TypeEnv<'a>, mut bound: Vec<Names<'a>>) -> Result<(), AllocError>
    ensures { OnOk result (s.new ≡ record (s.old) { locals = all_bound bound.entry.items ++ s.old.locals }) }
{
    'alternatives: while let Some(names) = bound.pop() {
        s.locals.bind_all(names)?;
    }
    Ok(())
}
