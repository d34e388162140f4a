//! `if`, blocks, `let` and `for` from their parts.

ghost use Rattle.std.specs.Prelude.{◌≡◌, List, Option, Some, IfOk, OnOk, OnErr};
ghost use Rattle.base.specs.Lists.Prefix.{IsPrefix};
ghost use Rattle.dslx_meaning.specs.Lists.{and_then};
ghost use Rattle.dslx_meaning.specs.Types.{same_type};
ghost use Rattle.dslx_meaning.specs.Rules.ControlRules as the;
ghost use Rattle.dslx_meaning.specs.Rules.OperatorRules as operators;
ghost use Rattle.dslx_meaning.specs.Rules.RuleNumbers as asks;
ghost use Rattle.dslx_meaning.specs.Rules.TypeEnvs.{Judgement, TypeEnv, found_number as named_as};
ghost use Rattle.dslx_meaning.specs.Rules.Typings.{StatementSeen};
ghost use Rattle.dslx_check_rules.specs.Seen.{capped, seen};
ghost use Rattle.dslx_check_rules.specs.Interned.{AreDistinct, HasRow, HasRowIf, ItemNames, KeepsItems, type_at, type_if};
ghost use Rattle.dslx_check_rules.specs.declared.table.row.TypeRow.{TypeRow as Row};
ghost use Rattle.dslx_check_rules.specs.Nodes.Parts.{FromNone, FromThree, IsPartIf};
ghost use Rattle.dslx_check_rules.specs.Control.Control as half;

use crate::control::patterns::PatternTyping;
use crate::nodes::lists::there;
use crate::nodes::operators::if_there;
use crate::nodes::{ConstantTyping, Spanned, settle};
use crate::{
    Faults, TypeId, TypeTable, Typing, one_and, plus_size, rule, same_ends, times_size,
    unless_bool, unless_one_bit_type, wanted_faults,
};
use dslx_meaning::DslxValue;
use dslx_values::bits_of;
use dslx_values::operators::turns;
use std::alloc::{AllocError, Global};
use xb_span::{Span, What};
use xb_value::Seq;

/// `if`: the condition is `bool`, and both branches have one type.
pub fn if_typing(
    types: &TypeTable,
    span: Span,
    condition: Spanned,
    first: Typing,
    second: Typing,
) -> Typing
    ensures { FromThree (half.if_of span condition.span) types.now types.now condition.typing first second result }
{
    let test = condition.typing;
    let own = unless_bool(types, rule::CONDITION_IS_BOOL, condition.span, test.ty);
    let differ = branch_faults(types, span, first.ty, second.ty);
    let parts = test.faults.and(first.faults).and(second.faults);
    let faults = parts.and(own).and(differ);
    let branches = if_there(second.ty, first.ty);
    let ty = if_there(test.ty, branches);
    let both = plus_size(first.size, second.size);
    let size = one_and(plus_size(test.size, both));
    settle(types, span, ty, faults, size)
}

/// The branches that have types are of one.
fn branch_faults(
    types: &TypeTable,
    span: Span,
    first: Option<TypeId>,
    second: Option<TypeId>,
) -> Faults
    ensures { (names : ItemNames) (later : List Row) → AreDistinct names → IsPrefix types.now later → HasRowIf types.now first → HasRowIf types.now second
        → result ≡ seen (operators.unless_types same_type asks.BRANCHES_OF_ONE_TYPE span (type_if names later first) (type_if names later second)) }
{
    match (first, second) {
        (Some(first), Some(second)) => {
            let is_one = types.same(first, second);
            Faults::breaks_if(!is_one, rule::BRANCHES_OF_ONE_TYPE, span)
        }
        _ => Faults::none(),
    }
}

/// What statements come to: their faults, and how many nodes they have.
#[derive(Clone, Copy)]
pub struct StatementTyping {
    pub faults: Faults,
    pub size: Option<u32>,
}

impl StatementTyping {
    /// That of no statement.
    pub fn none() -> StatementTyping
        ensures { (context : TypeEnv) → half.IsStatement result (half.no_statement context) }
    {
        StatementTyping {
            faults: Faults::none(),
            size: Some(0),
        }
    }

    /// With one statement more.
    pub fn and(self, next: StatementTyping) -> StatementTyping
        ensures { (x y : StatementSeen) → half.IsStatement self x → half.IsStatement next y → half.IsStatement result (half.both_statements x y) }
    {
        StatementTyping {
            faults: self.faults.and(next.faults),
            size: plus_size(self.size, next.size),
        }
    }
}

/// A block: it has the type of its last expression.
pub fn block_typing(
    types: &TypeTable,
    span: Span,
    statements: StatementTyping,
    last: Typing,
) -> Typing
    ensures { half.FromBlock span types.now statements last result }
{
    let faults = statements.faults.and(last.faults);
    let size = one_and(plus_size(statements.size, last.size));
    settle(types, span, last.ty, faults, size)
}

/// The end of a block without a last expression.
pub fn no_value(types: &mut TypeTable, alloc: Global) -> Result<Typing, AllocError>
    ensures typed { IfOk result (λ j. FromNone half.no_value types.new j) }
    ensures items { OnOk result (KeepsItems types.old types.new) }
    ensures grows { OnOk result (IsPrefix types.old types.new) }
    ensures stays { OnErr result (types.new ≡ types.old) }
{
    let unit = types.unit(alloc)?;
    Ok(Typing {
        ty: Some(unit),
        faults: Faults::none(),
        size: Some(0),
    })
}

/// The type that a `let` gives its pattern: a written one only where it is the value's.
pub fn bound_type(
    types: &TypeTable,
    written: Option<Typing>,
    value: Option<TypeId>,
) -> Option<TypeId>
    ensures is { (names : ItemNames) (later : List Row) (w : Option Judgement) → AreDistinct names → IsPrefix types.now later → IsPartIf names types.now later written w → HasRowIf types.now value
        → type_if names later result ≡ the.bound_type w (type_if names later value) }
    ensures there { HasRowIf types.now value → HasRowIf types.now result }
{
    match written {
        None => value,
        Some(written) => value_of_type(types, written.ty, value),
    }
}

/// The type of a value, where it is the one that is written.
fn value_of_type(
    types: &TypeTable,
    written: Option<TypeId>,
    value: Option<TypeId>,
) -> Option<TypeId>
    ensures is { (names : ItemNames) (later : List Row) (w : Judgement) → AreDistinct names → IsPrefix types.now later → HasRowIf types.now written → HasRowIf types.now value
        → type_if names later written ≡ w.ty → type_if names later result ≡ the.bound_type (Some w) (type_if names later value) }
    ensures there { HasRowIf types.now value → HasRowIf types.now result }
{
    match (written, value) {
        (Some(written), Some(value)) => if types.same(written, value) {
            Some(value)
        } else {
            None
        },
        _ => None,
    }
}

/// A `let` from its value, its annotation and its pattern.
pub fn let_typing(
    types: &TypeTable,
    value: Spanned,
    written: Option<Typing>,
    pattern: PatternTyping,
) -> StatementTyping
    ensures { half.FromLet types.now value written pattern result }
{
    let annotation = annotation_typing(types, value, written);
    let own = plus_size(value.typing.size, pattern.size);
    let before = value.typing.faults.and(annotation.faults);
    let faults = before.and(pattern.faults);
    let size = plus_size(annotation.size, own);
    StatementTyping { faults, size }
}

/// The annotation of a `let`: it counts nothing, but what has no type leaves what it stands in without a size.
fn annotation_typing(types: &TypeTable, value: Spanned, written: Option<Typing>) -> StatementTyping
    ensures { (names : ItemNames) (later : List Row) (w : Option Judgement) → AreDistinct names → IsPrefix types.now later → IsPartIf names types.now later written w
        → HasRowIf types.now value.typing.ty → half.IsAnnotation value.span w (type_if names later value.typing.ty) result }
{
    match written {
        None => StatementTyping {
            faults: Faults::none(),
            size: Some(0),
        },
        Some(written) => {
            let own = wanted_faults(types, value.span, written.ty, value.typing.ty);
            let faults = written.faults.and(own);
            let size = written.size;
            StatementTyping { faults, size }
        }
    }
}

/// A loop by its parts: the ends of its range, its annotation, what it starts with, its two patterns and its body.
#[derive(Clone, Copy)]
pub struct LoopParts<'p> {
    pub from: &'p ConstantTyping,
    pub to: &'p ConstantTyping,
    pub written: Option<Typing>,
    pub start: Typing,
    pub index: PatternTyping,
    pub accumulator: PatternTyping,
    pub body: Spanned,
}

/// A loop.
pub fn loop_typing(
    alloc: Global,
    types: &mut TypeTable,
    span: Span,
    parts: &LoopParts,
) -> Result<Typing, AllocError>
    ensures typed { IfOk result (λ j. half.FromLoop span types.old types.new parts.now j) }
    ensures items { OnOk result (KeepsItems types.old types.new) }
    ensures grows { OnOk result (IsPrefix types.old types.new) }
    ensures stays { OnErr result (types.new ≡ types.old) }
{
    let index = same_ends(types, parts.from.typing.ty, parts.to.typing.ty);
    let pair = pair_type(alloc, types, index, parts.start.ty)?;
    let count = turns_of(&parts.from.value, &parts.to.value);
    let own = loop_faults(types, span, parts, pair, count);
    let faults = parts_faults(parts).and(own);
    let ty = loop_type(index, parts);
    let size = loop_size(parts, count);
    Ok(settle(types, span, ty, faults, size))
}

/// The type of what a turn is given.
fn pair_type(
    alloc: Global,
    types: &mut TypeTable,
    index: Option<TypeId>,
    accumulator: Option<TypeId>,
) -> Result<Option<TypeId>, AllocError>
    ensures is { IfOk result (λ t. (names : ItemNames) (later : List Row) → IsPrefix types.new later
        → type_if names later t ≡ half.pair_of (type_if names later index) (type_if names later accumulator)) }
    ensures there { IfOk result (λ t. HasRowIf types.new t) }
    ensures items { OnOk result (KeepsItems types.old types.new) }
    ensures grows { OnOk result (IsPrefix types.old types.new) }
    ensures stays { OnErr result (types.new ≡ types.old) }
{
    match (index, accumulator) {
        (Some(index), Some(accumulator)) => {
            let ty = both_types(alloc, types, index, accumulator)?;
            Ok(Some(ty))
        }
        _ => Ok(None),
    }
}

/// The type of pairs of these.
fn both_types(
    alloc: Global,
    types: &mut TypeTable,
    first: TypeId,
    second: TypeId,
) -> Result<TypeId, AllocError>
    ensures is { IfOk result (λ t. (names : ItemNames) (later : List Row) → IsPrefix types.new later
        → Some (type_at names later t) ≡ half.pair_of (Some (type_at names later first)) (Some (type_at names later second))) }
    ensures there { IfOk result (λ t. HasRow types.new t) }
    ensures items { OnOk result (KeepsItems types.old types.new) }
    ensures grows { OnOk result (IsPrefix types.old types.new) }
    ensures stays { OnErr result (types.new ≡ types.old) }
{
    let first = there(types, first)?;
    let second = there(types, second)?;
    let parts = Seq::from_slice(alloc, &[first, second])?;
    let ty = types.tuple(parts)?;
    Ok(ty)
}

/// How many turns it takes, where both ends are known.
fn turns_of(from: &Option<DslxValue>, to: &Option<DslxValue>) -> Option<u128>
    ensures { result ≡ the.turns_of from.now to.now }
{
    match (from, to) {
        (Some(from), Some(to)) => turns_between(from, to),
        _ => None,
    }
}

fn turns_between(from: &DslxValue, to: &DslxValue) -> Option<u128>
    ensures { result ≡ the.turns_of (Some from.now) (Some to.now) }
{
    match (bits_of(from), bits_of(to)) {
        (Some(from), Some(to)) => turns(&from, &to),
        _ => None,
    }
}

/// What the parts of a loop break, but for its annotation.
fn parts_faults(parts: &LoopParts) -> Faults
    ensures { (names : ItemNames) (rows later : List Row) (l : the.LoopSeen) → half.IsLoop names rows later parts.now l → result ≡ seen (the.loop_parts_faults l) }
{
    let ends = parts.from.typing.faults.and(parts.to.typing.faults);
    let start = ends.and(parts.start.faults);
    let index = start.and(parts.index.faults);
    let patterns = index.and(parts.accumulator.faults);
    patterns.and(parts.body.typing.faults)
}

/// What a loop breaks, which gives each turn a pair of this type, and takes so many.
fn loop_faults(
    types: &TypeTable,
    span: Span,
    parts: &LoopParts,
    pair: Option<TypeId>,
    count: Option<u128>,
) -> Faults
    ensures { (names : ItemNames) (later : List Row) (l : the.LoopSeen) → AreDistinct names → IsPrefix types.now later → half.IsLoop names types.now later parts.now l → HasRowIf types.now pair
        → type_if names later pair ≡ half.pair_of (the.index_type l) l.start.ty → count ≡ the.turns_of l.from.value l.to.value
        → result ≡ seen (the.loop_faults span parts.now.body.span l) }
{
    let (from, to) = (parts.from.typing.ty, parts.to.typing.ty);
    let ends = unless_one_bit_type(types, rule::RANGE_OF_ONE_TYPE, span, from, to);
    let annotation = loop_annotation(types, span, parts.written, pair);
    let body = wanted_faults(types, parts.body.span, parts.start.ty, parts.body.typing.ty);
    let limit = turn_limit(span.to, count);
    let kinds = ends.and(annotation).and(body);
    kinds.and(limit)
}

/// The annotation is the type of what a turn is given.
fn loop_annotation(
    types: &TypeTable,
    span: Span,
    written: Option<Typing>,
    pair: Option<TypeId>,
) -> Faults
    ensures { (names : ItemNames) (later : List Row) (w : Option Judgement) → AreDistinct names → IsPrefix types.now later → IsPartIf names types.now later written w → HasRowIf types.now pair
        → result ≡ seen (half.annotated_with span w (type_if names later pair)) }
{
    match written {
        None => Faults::none(),
        Some(written) => {
            let own = wanted_faults(types, span, written.ty, pair);
            written.faults.and(own)
        }
    }
}

fn turn_limit(end: u32, count: Option<u128>) -> Faults
    ensures { result ≡ seen (the.turn_limit end count) }
{
    match count {
        None => Faults::none(),
        Some(count) => Faults::passes(What::Turns, 1024, end, found_number(count)),
    }
}

fn found_number(count: u128) -> u64
    ensures { result ≡ named_as count }
{
    count.min(u64::MAX as u128) as u64
}

/// No part may lack a type, the annotation neither.
fn loop_type(index: Option<TypeId>, parts: &LoopParts) -> Option<TypeId>
    ensures { result ≡ and_then index (λ i. and_then parts.now.body.typing.ty (λ b. and_then (half.annotated_id parts.now.written parts.now.start.ty) (λ a. parts.now.start.ty))) }
{
    let annotated = match parts.written {
        None => parts.start.ty,
        Some(written) => written.ty,
    };
    let ty = if_there(annotated, parts.start.ty);
    let ty = if_there(parts.body.typing.ty, ty);
    if_there(index, ty)
}

/// Each turn counts 1, its patterns and its body.
fn loop_size(parts: &LoopParts, count: Option<u128>) -> Option<u32>
    ensures { (names : ItemNames) (rows later : List Row) (l : the.LoopSeen) → half.IsLoop names rows later parts.now l → count ≡ the.turns_of l.from.value l.to.value
        → result ≡ capped (the.loop_size l) }
{
    let index = one_and(parts.index.size);
    let patterns = plus_size(index, parts.accumulator.size);
    let turn = plus_size(patterns, parts.body.typing.size);
    let turns = times_size(count, turn);
    let inner = plus_size(parts.start.size, turns);
    let ends = plus_size(parts.from.typing.size, parts.to.typing.size);
    one_and(plus_size(ends, inner))
}
