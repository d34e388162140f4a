//! What several parts come to together.

ghost use Rattle.std.specs.Prelude.{◌≡◌, ◌++◌, ◌∷◌, [], List, Option, Some, IfOk, IfSome, OnOk, OnErr, map};
ghost use Rattle.std.specs.List.{All};
ghost use Rattle.base.specs.Lists.Prefix.{IsPrefix};
ghost use Rattle.dslx_meaning.specs.Lists.{all_some, and_then};
ghost use Rattle.dslx_meaning.specs.declared.ty.DslxType as ty;
ghost use Rattle.dslx_meaning.specs.Rules.TypeEnvs as the;
ghost use Rattle.dslx_meaning.specs.Rules.AggregateRules as aggregates;
ghost use Rattle.dslx_check_rules.specs.Seen.{seen};
ghost use Rattle.dslx_check_rules.specs.Interned.{AreDistinct, HasRow, HasRowIf, ItemNames, KeepsItems, type_if};
ghost use Rattle.dslx_check_rules.specs.declared.table.row.TypeRow.{TypeRow as Row};
ghost use Rattle.dslx_check_rules.specs.Nodes.Parts.{ArePlaced, IsPart, Placed, judgements};
ghost use Rattle.dslx_check_rules.specs.Nodes.Nodes.Lists.{IsList, element_of};

use crate::nodes::parts::{Spanned, both};
use crate::nodes::written::inner_type;
use crate::{Faults, TypeId, TypeTable, Typing, plus_size};
use std::alloc::{AllocError, Global};
use xb_value::Seq;

/// What several parts come to together: their faults, how many nodes they have, and whether each has a type.
#[derive(Clone, Copy)]
pub struct ListTyping {
    pub faults: Faults,
    pub size: Option<u32>,
    pub is_typed: bool,
}

impl ListTyping {
    /// That of no part.
    pub fn none() -> ListTyping
        ensures { IsList result [] }
    {
        ListTyping {
            faults: Faults::none(),
            size: Some(0),
            is_typed: true,
        }
    }

    /// With one part more.
    pub fn and(self, next: Typing) -> ListTyping
        ensures { (names : ItemNames) (rows later : List Row) (js : List the.Judgement) (j : the.Judgement) → IsList self js → IsPart names rows later next j → IsList result (js ++ j ∷ []) }
    {
        ListTyping {
            faults: self.faults.and(next.faults),
            size: plus_size(self.size, next.size),
            is_typed: both(self.is_typed, next.ty.is_some()),
        }
    }

    /// The type, where each part has one.
    pub fn when_all(self, ty: Option<TypeId>) -> Option<TypeId>
        ensures is { (names : ItemNames) (later : List Row) (js : List the.Judgement) → IsList self js
            → type_if names later result ≡ aggregates.when_all (the.types_of js) (type_if names later ty) }
        ensures there { (rows : List Row) → HasRowIf rows ty → HasRowIf rows result }
    {
        if self.is_typed { ty } else { None }
    }
}

/// What these parts come to together.
pub fn all_typings(parts: &[Spanned]) -> ListTyping
    ensures { (names : ItemNames) (rows later : List Row) (xs : List Placed) → ArePlaced names rows later parts.now xs → IsList result (judgements xs) }
{
    let mut all = ListTyping::none();
    'parts: for part in parts {
        all = all.and(part.typing);
    }
    all
}

/// The faults of all parts.
pub fn faults_of_all(parts: &[Spanned]) -> Faults
    ensures { (names : ItemNames) (rows later : List Row) (xs : List Placed) → ArePlaced names rows later parts.now xs → result ≡ seen (the.faults_of_all (judgements xs)) }
{
    let all = all_typings(parts);
    all.faults
}

/// What these parts come to together, none of which may be `()`.
pub(crate) fn element_typings(types: &TypeTable, parts: &[Spanned]) -> ListTyping
    ensures { (names : ItemNames) (later : List Row) (xs : List Placed) → AreDistinct names → IsPrefix types.now later → ArePlaced names types.now later parts.now xs
        → IsList result (map element_of xs) }
{
    let mut all = ListTyping::none();
    'parts: for part in parts {
        let element = inner_type(types, part.span, part.typing);
        all = all.and(element);
    }
    all
}

/// The types of all parts, where each has one.
fn all_types(
    alloc: Global,
    types: &TypeTable,
    parts: &[Spanned],
) -> Result<Option<Seq<TypeId>>, AllocError>
    ensures is { IfOk result (λ all. all ≡ all_some (map (λ part. part.typing.ty) parts.now)) }
    ensures there { IfOk result (λ all. IfSome all (All (HasRow types.now))) }
{
    let mut all = Vec::new(alloc);
    'parts: for part in parts {
        match part.typing.ty {
            Some(ty) => {
                let ty = there(types, ty)?;
                all.push(ty)?;
            }
            None => return Ok(None),
        }
    }
    Ok(Some(Seq::from_vec(all)))
}

/// A type that is in the table, as each is that a walk comes to. Another one is refused as for want of memory.
pub fn there(types: &TypeTable, ty: TypeId) -> Result<TypeId, AllocError>
    ensures same { IfOk result (λ t. t ≡ ty) }
    ensures there { IfOk result (λ t. HasRow types.now t) }
{
    match types.row(ty) {
        Some(_) => Ok(ty),
        None => Err(AllocError),
    }
}

/// The type of tuples of these, where each has a type.
pub(crate) fn tuple_of(
    alloc: Global,
    types: &mut TypeTable,
    parts: &[Spanned],
) -> Result<Option<TypeId>, AllocError>
    ensures is { IfOk result (λ t. (names : ItemNames) (later : List Row) (xs : List Placed) → IsPrefix types.new later → ArePlaced names types.old later parts.now xs
        → type_if names later t ≡ and_then (all_some (the.types_of (judgements xs))) (λ ts. Some (ty.Tuple ts))) }
    ensures there { IfOk result (λ t. HasRowIf types.new t) }
    ensures items { OnOk result (KeepsItems types.old types.new) }
    ensures grows { OnOk result (IsPrefix types.old types.new) }
    ensures stays { OnErr result (types.new ≡ types.old) }
{
    match all_types(alloc, types, parts)? {
        Some(all) => {
            let ty = types.tuple(all)?;
            Ok(Some(ty))
        }
        None => Ok(None),
    }
}

/// The type of arrays of so many of these, if it is a type.
pub(crate) fn array_of(
    types: &mut TypeTable,
    part: Option<TypeId>,
    count: u128,
) -> Result<Option<TypeId>, AllocError>
    ensures is { IfOk result (λ t. (names : ItemNames) (later : List Row) → IsPrefix types.new later
        → type_if names later t ≡ and_then (type_if names later part) (λ u. Some (ty.Array u count))) }
    ensures there { IfOk result (λ t. HasRowIf types.new t) }
    ensures items { OnOk result (KeepsItems types.old types.new) }
    ensures grows { OnOk result (IsPrefix types.old types.new) }
    ensures stays { OnErr result (types.new ≡ types.old) }
{
    match part {
        Some(part) => {
            let part = there(types, part)?;
            let ty = types.array(part, count)?;
            Ok(Some(ty))
        }
        None => Ok(None),
    }
}
