//! Tokens and effects from their parts.

ghost use Rattle.std.specs.Prelude.{◌≡◌, ◌∷◌, [], ℕ, List, Option, Some, IfOk, OnOk, OnErr};
ghost use Rattle.base.specs.Lists.Prefix.{IsPrefix};
ghost use Rattle.dslx_meaning.specs.Rules.PatternRules.{is_there};
ghost use Rattle.dslx_meaning.specs.Rules.CallRules as the;
ghost use Rattle.dslx_meaning.specs.Rules.TypeEnvs.{ChannelEnd, TypeEnv};
ghost use Rattle.dslx_check_rules.specs.Seen.{seen};
ghost use Rattle.dslx_check_rules.specs.Interned.{AreDistinct, HasRow, HasRowIf, ItemNames, KeepsItems, type_at, type_if};
ghost use Rattle.dslx_check_rules.specs.declared.table.row.TypeRow.{TypeRow as Row};
ghost use Rattle.dslx_check_rules.specs.Nodes.Parts.{ArePlaced, FromAll, FromOne, IsPart, IsPlaced, Placed};
ghost use Rattle.dslx_check_rules.specs.Control.Effects as half;

use crate::nodes::lists::{all_typings, there};
use crate::nodes::operators::if_there;
use crate::nodes::{Spanned, either, settle};
use crate::{
    Faults, TypeId, TypeTable, Typing, held_faults, one_and, plus_size, rule, token_faults,
    unless_bool, wanted_faults,
};
use dslx_tree::Direction;
use std::alloc::{AllocError, Global};
use xb_span::Span;

/// What stands where a token may: a receive's pair doesn't.
pub fn held_typing(types: &TypeTable, span: Span, value: Typing) -> Typing
    ensures { FromOne (half.held_of span) types.now types.now value result }
{
    let own = held_faults(types, span, value.ty);
    value.with(own)
}

/// What stands where a token has to.
pub fn token_typing(types: &TypeTable, span: Span, value: Typing) -> Typing
    ensures { FromOne (half.token_of span) types.now types.now value result }
{
    let own = token_faults(types, span, value.ty);
    value.with(own)
}

/// A join of tokens.
pub fn joining_typing(
    types: &mut TypeTable,
    span: Span,
    tokens: &[Spanned],
) -> Result<Typing, AllocError>
    ensures typed { IfOk result (λ j. FromAll (half.joining_of span) types.old types.new tokens.now j) }
    ensures items { OnOk result (KeepsItems types.old types.new) }
    ensures grows { OnOk result (IsPrefix types.old types.new) }
    ensures stays { OnErr result (types.new ≡ types.old) }
{
    let all = all_typings(tokens);
    let token = types.token()?;
    let ty = all.when_all(Some(token));
    let size = one_and(all.size);
    Ok(settle(types, span, ty, all.faults, size))
}

/// An effect's channel: what its name or its expression comes to, the end's direction and the type of its words if it is one, and
/// whether an effect stands there before.
#[derive(Clone, Copy)]
pub struct ChannelTyping {
    pub typing: Typing,
    pub direction: Option<Direction>,
    pub word: Option<TypeId>,
    pub has_site: bool,
}

/// A name as an effect's channel: it is an end's or isn't.
pub fn named_channel(span: Span, is_end: bool) -> Typing
    ensures { (names : ItemNames) (rows later : List Row) (name : List ℕ) (channel_end : Option ChannelEnd) → is_end ≡ is_there channel_end
        → IsPart names rows later result (the.named_channel span name channel_end) }
{
    Typing {
        ty: None,
        faults: Faults::breaks_if(!is_end, rule::NAME_IS_DECLARED, span),
        size: Some(1),
    }
}

/// An effect in a direction, of a token, a channel and others.
pub fn effect_typing(
    alloc: Global,
    types: &mut TypeTable,
    span: Span,
    direction: Direction,
    token: Typing,
    channel: ChannelTyping,
    others: &[Spanned],
) -> Result<Typing, AllocError>
    ensures typed { IfOk result (λ j. half.FromEffect span direction types.old types.new token channel others.now j) }
    ensures items { OnOk result (KeepsItems types.old types.new) }
    ensures grows { OnOk result (IsPrefix types.old types.new) }
{
    let all = all_typings(others);
    let more = other_faults(types, channel.word, others);
    let site = site_faults(span, direction, channel);
    let given = given_type(alloc, types, direction, channel.word)?;
    let whole = all.when_all(given);
    let ty = if_there(token.ty, whole);
    let parts = token.faults.and(channel.typing.faults);
    let faults = parts.and(all.faults).and(more).and(site);
    let rest = plus_size(channel.typing.size, all.size);
    let size = one_and(plus_size(token.size, rest));
    Ok(settle(types, span, ty, faults, size))
}

/// A word, behind a condition where there is one: the condition is `bool`, the word is of the channel.
fn other_faults(types: &TypeTable, word: Option<TypeId>, others: &[Spanned]) -> Faults
    ensures { (names : ItemNames) (later : List Row) (xs : List Placed) → AreDistinct names → IsPrefix types.now later → HasRowIf types.now word → ArePlaced names types.now later others.now xs
        → result ≡ seen (half.other_faults (type_if names later word) xs) }
{
    match others {
        [] => Faults::none(),
        [value] => wanted_faults(types, value.span, word, value.typing.ty),
        [test, value] => word_faults(types, word, *test, *value),
        [_, _, _, ..] => Faults::none(),
    }
}

fn word_faults(types: &TypeTable, word: Option<TypeId>, test: Spanned, value: Spanned) -> Faults
    ensures { (names : ItemNames) (later : List Row) (p x : Placed) → AreDistinct names → IsPrefix types.now later → HasRowIf types.now word → IsPlaced names types.now later test p
        → IsPlaced names types.now later value x → result ≡ seen (half.other_faults (type_if names later word) (p ∷ x ∷ [])) }
{
    let odd = unless_bool(types, rule::CONDITION_IS_BOOL, test.span, test.typing.ty);
    let own = wanted_faults(types, value.span, word, value.typing.ty);
    odd.and(own)
}

/// It is no member, or one of the other direction, or one with a site before.
fn site_faults(span: Span, direction: Direction, channel: ChannelTyping) -> Faults
    ensures { (names : ItemNames) (rows later : List Row) (context : TypeEnv) (c : the.ChannelSeen) → half.IsEffectChannel names rows later context channel c
        → result ≡ seen (the.site_faults span context direction c) }
{
    let goes = goes_there(direction, channel.direction);
    let is_odd = either(!goes, channel.has_site);
    Faults::breaks_if(is_odd, rule::EFFECT_ON_FREE_MEMBER, span)
}

fn goes_there(direction: Direction, other: Option<Direction>) -> bool
    ensures { result ≡ half.goes direction other }
{
    match other {
        Some(other) => same_direction(direction, other),
        None => false,
    }
}

fn same_direction(a: Direction, b: Direction) -> bool
    ensures { result ≡ the.same_direction a b }
{
    match (a, b) {
        (Direction::In, Direction::In) => true,
        (Direction::Out, Direction::Out) => true,
        _ => false,
    }
}

/// What an effect gives: a token, and a word if it receives.
fn given_type(
    alloc: Global,
    types: &mut TypeTable,
    direction: Direction,
    word: Option<TypeId>,
) -> Result<Option<TypeId>, AllocError>
    ensures is { IfOk result (λ t. (names : ItemNames) (later : List Row) → IsPrefix types.new later → type_if names later t ≡ half.given_type direction (type_if names later word)) }
    ensures there { IfOk result (λ t. HasRowIf types.new t) }
    ensures items { OnOk result (KeepsItems types.old types.new) }
    ensures grows { OnOk result (IsPrefix types.old types.new) }
{
    match word {
        None => Ok(None),
        Some(word) => {
            let ty = gives(alloc, types, direction, word)?;
            Ok(Some(ty))
        }
    }
}

/// The same where its words have a type.
fn gives(
    alloc: Global,
    types: &mut TypeTable,
    direction: Direction,
    word: TypeId,
) -> Result<TypeId, AllocError>
    ensures is { IfOk result (λ t. (names : ItemNames) (later : List Row) → IsPrefix types.new later
        → Some (type_at names later t) ≡ half.given_type direction (Some (type_at names later word))) }
    ensures there { IfOk result (λ t. HasRow types.new t) }
    ensures items { OnOk result (KeepsItems types.old types.new) }
    ensures grows { OnOk result (IsPrefix types.old types.new) }
{
    let word = there(types, word)?;
    match direction {
        Direction::In => {
            let ty = types.received(alloc, word)?;
            Ok(ty)
        }
        Direction::Out => {
            let ty = types.token()?;
            Ok(ty)
        }
    }
}

/// An effect stands at the top of `next` alone.
pub fn only_on_top(on_top: bool, span: Span, effect: Typing) -> Typing
    ensures { (rows : List Row) → FromOne (the.only_on_top on_top span) rows rows effect result }
{
    if on_top {
        effect
    } else {
        Typing {
            ty: None,
            faults: effect
                .faults
                .and(Faults::breaks(rule::EFFECT_STANDS_ALONE, span)),
            size: effect.size,
        }
    }
}
