//! Names: where they are used, and where they are declared.

ghost use Rattle.std.specs.Prelude.{None, IfOk, OnOk};
ghost use Rattle.dslx_meaning.specs.Environment.{given_in};
ghost use Rattle.dslx_meaning.specs.Lists.{is_in};
ghost use Rattle.dslx_meaning.specs.Rules.NameRules as the;
ghost use Rattle.dslx_check_facts.specs.Judged.{ComesToTyping};
ghost use Rattle.dslx_check_facts.specs.Walks.{OnlyMisses, shown};

use crate::facts::Facts;
use crate::lookups::{constant_type, has_member, member_type};
use crate::type_env::TypeEnv;
use crate::walk::Walk;
use base::texts::Name;
use dslx_check_rules::{Faults, Typing, rule};
use dslx_tree::Ident;
use std::alloc::AllocError;
use xb_span::Span;

/// A name as a value: a bound name, a parametric or a constant. Rule 1 refuses all else, rule 3 a constant that reaches the item in whose
/// text it is named.
pub fn name_typing<'a>(
    f: &Facts<'a>,
    w: &mut Walk,
    s: &TypeEnv<'a>,
    span: Span,
    name: &Name,
) -> Result<Typing, AllocError>
    ensures misses { OnOk result (OnlyMisses (shown w.old) (shown w.new)) }
    ensures judged { IfOk result (λ t. ComesToTyping f.now s.now (shown w.old) (shown w.new) t (λ context. the.name_typing span context name.now)) }
{
    match s.locals.get(name) {
        Some(ty) => Ok(w.settled(span, *ty, Faults::none(), Some(1))),
        None => end_or_other(f, w, s, span, name),
    }
}

/// An end of a `config` is no value, and hides parametrics and items of its name.
fn end_or_other<'a>(
    f: &Facts<'a>,
    w: &mut Walk,
    s: &TypeEnv<'a>,
    span: Span,
    name: &Name,
) -> Result<Typing, AllocError>
    ensures misses { OnOk result (OnlyMisses (shown w.old) (shown w.new)) }
    ensures judged { IfOk result (λ t. ComesToTyping f.now s.now (shown w.old) (shown w.new) t (λ context. the.end_or_other span context name.now (is_in name.now context.ends))) }
{
    if s.ends.has(name) {
        Ok(w.settled(
            span,
            None,
            Faults::breaks(rule::NAME_IS_DECLARED, span),
            Some(1),
        ))
    } else {
        parametric_or_item(f, w, s, span, name)
    }
}

/// A parametric has no type where no value of it is known.
fn parametric_or_item<'a>(
    f: &Facts<'a>,
    w: &mut Walk,
    s: &TypeEnv<'a>,
    span: Span,
    name: &Name,
) -> Result<Typing, AllocError>
    ensures misses { OnOk result (OnlyMisses (shown w.old) (shown w.new)) }
    ensures judged { IfOk result (λ t. ComesToTyping f.now s.now (shown w.old) (shown w.new) t
        (λ context. the.parametric_or_item span context name.now (given_in name.now context.parametric_args))) }
{
    match s.parametric_args.get(name) {
        Some(arg) => Ok(w.settled(span, Some(arg.ty), Faults::none(), Some(1))),
        None => unknown_or_item(f, w, s, span, name),
    }
}

/// What is no parametric with a value.
fn unknown_or_item<'a>(
    f: &Facts<'a>,
    w: &mut Walk,
    s: &TypeEnv<'a>,
    span: Span,
    name: &Name,
) -> Result<Typing, AllocError>
    ensures misses { OnOk result (OnlyMisses (shown w.old) (shown w.new)) }
    ensures judged { IfOk result (λ t. ComesToTyping f.now s.now (shown w.old) (shown w.new) t (λ context. the.parametric_or_item span context name.now None)) }
{
    if s.unknown.has(name) {
        Ok(w.settled(span, None, Faults::none(), Some(1)))
    } else {
        item_value(f, w, s, span, name)
    }
}

/// A constant of the text, or nothing that has a value.
#[tactic(auto, using(crate::proofs::Lemmas::Walks::misses_refl, crate::proofs::OnUses::no_item, crate::proofs::OnUses::constant_item))]
fn item_value<'a>(
    f: &Facts<'a>,
    w: &mut Walk,
    s: &TypeEnv<'a>,
    span: Span,
    name: &Name,
) -> Result<Typing, AllocError>
    ensures misses { OnOk result (OnlyMisses (shown w.old) (shown w.new)) }
    ensures judged { IfOk result (λ t. ComesToTyping f.now s.now (shown w.old) (shown w.new) t
        (λ context. the.item_value span context name.now (context.known.items.is_constant name.now))) }
{
    match f.constant(name) {
        None => {
            let faults = Faults::breaks(rule::NAME_IS_DECLARED, span);
            Ok(w.settled(span, None, faults, Some(1)))
        }
        Some((item, _)) => {
            let is_cyclic = f.is_cyclic(s.owner, item);
            let ty = constant_type(f, w, item)?;
            let faults = Faults::breaks_if(is_cyclic, rule::NO_ITEM_REACHES_ITSELF, span);
            Ok(w.settled(span, ty, faults, Some(1)))
        }
    }
}

/// `E::A`, to which no limit applies.
#[tactic(auto, using(crate::proofs::Lemmas::Walks::misses_refl, crate::proofs::OnUses::no_enum, crate::proofs::OnUses::member_of_enum))]
pub fn member_typing<'a>(
    f: &Facts<'a>,
    w: &mut Walk,
    s: &TypeEnv<'a>,
    choice: &Ident,
    member: &Ident,
) -> Result<Typing, AllocError>
    ensures misses { OnOk result (OnlyMisses (shown w.old) (shown w.new)) }
    ensures judged { IfOk result (λ t. ComesToTyping f.now s.now (shown w.old) (shown w.new) t (λ context. the.member_typing context choice.now member.now)) }
{
    match f.choice(&choice.name) {
        None => {
            let faults = Faults::breaks(rule::NAME_IS_DECLARED, choice.span);
            Ok(w.unlimited(None, faults, Some(1)))
        }
        Some((item, declared)) => {
            let is_cyclic = f.is_cyclic(s.owner, item);
            let lacks = !has_member(declared, &member.name);
            let ty = member_type(f, w, item, declared, &member.name)?;
            let cyclic = Faults::breaks_if(is_cyclic, rule::NO_ITEM_REACHES_ITSELF, choice.span);
            let faults = cyclic.and(Faults::breaks_if(lacks, rule::NAME_IS_DECLARED, member.span));
            Ok(w.unlimited(ty, faults, Some(1)))
        }
    }
}
