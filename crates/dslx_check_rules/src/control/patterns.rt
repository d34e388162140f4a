//! Patterns from their parts.

ghost use Rattle.std.specs.Prelude.{◌≡◌, ℕ, List, Option, Some, true, slice_get};
ghost use Rattle.base.specs.Lists.Prefix.{IsPrefix};
ghost use Rattle.dslx_meaning.specs.Lists.{and_then};
ghost use Rattle.dslx_meaning.specs.Rules.PatternRules as the;
ghost use Rattle.dslx_meaning.specs.Rules.NameRules.{local_name};
ghost use Rattle.dslx_meaning.specs.Rules.TypeEnvs.{Judgement, TypeEnv, Typed};
ghost use Rattle.dslx_meaning.specs.Rules.Typings.{PatternSeen};
ghost use Rattle.dslx_meaning.specs.declared.ty.DslxType.{DslxType};
ghost use Rattle.dslx_check_rules.specs.Seen.{seen};
ghost use Rattle.dslx_check_rules.specs.Interned.{AreDistinct, HasRow, HasRowIf, ItemNames, type_at, type_if};
ghost use Rattle.dslx_check_rules.specs.declared.table.row.TypeRow.{TypeRow as Row};
ghost use Rattle.dslx_check_rules.specs.Nodes.Parts.{IsPart};
ghost use Rattle.dslx_check_rules.specs.Control.Patterns.{IsPattern};
ghost use Rattle.dslx_check_rules.specs.Control.Patterns as half;

use crate::nodes::both;
use crate::{Faults, TypeId, TypeRow, TypeTable, Typing, plus_size, rule};
use xb_span::Span;

/// What a pattern comes to, beside the names that it binds.
#[derive(Clone, Copy)]
pub struct PatternTyping {
    pub faults: Faults,
    pub size: Option<u32>,
    /// Whether all that it needs is known.
    pub is_known: bool,
    /// Whether it fits every value of its type.
    pub is_sure: bool,
}

/// `_`
pub fn wild_pattern() -> PatternTyping
    ensures { (names : List (List ℕ)) (locals : List Typed) → IsPattern result (record (the.nothing_bound names locals) { size = 1 }) }
{
    bound_pattern(Faults::none())
}

/// A name that is bound, with what it breaks.
pub fn bound_pattern(faults: Faults) -> PatternTyping
    ensures bound { (span : Span) (context : TypeEnv) (ty : Option DslxType) (names : List (List ℕ)) (locals : List Typed) (name : List ℕ)
        → faults ≡ seen (local_name context names (record { span = span; name = name })) → IsPattern result (the.bound_name span context ty names locals name) }
    ensures is { result ≡ record { faults = faults; size = Some 1; is_known = true; is_sure = true } }
{
    PatternTyping {
        faults,
        size: Some(1),
        is_known: true,
        is_sure: true,
    }
}

/// A pattern that is one value: it has the type of what it is matched with, and stands where patterns may fail.
pub fn value_pattern(
    types: &TypeTable,
    span: Span,
    may_fail: bool,
    ty: Option<TypeId>,
    own: Typing,
    is_known: bool,
) -> PatternTyping
    ensures { (names : ItemNames) (later : List Row) (j : Judgement) (bound : List (List ℕ)) (locals : List Typed) → AreDistinct names → IsPrefix types.now later → HasRowIf types.now ty
        → IsPart names types.now later own j → IsPattern result (the.one_value span may_fail (type_if names later ty) bound locals j is_known) }
{
    let shape = shape_faults(types, span, ty, own.ty);
    let odd = Faults::breaks_if(!may_fail, rule::PATTERN_FITS_TYPE, span);
    let faults = own.faults.and(shape);
    PatternTyping {
        faults: faults.and(odd),
        size: Some(1),
        is_known,
        is_sure: false,
    }
}

/// It hasn't the value's shape.
fn shape_faults(types: &TypeTable, span: Span, ty: Option<TypeId>, own: Option<TypeId>) -> Faults
    ensures { (names : ItemNames) (later : List Row) → AreDistinct names → IsPrefix types.now later → HasRowIf types.now ty → HasRowIf types.now own
        → result ≡ seen (the.shape_faults span (type_if names later ty) (type_if names later own)) }
{
    match (ty, own) {
        (Some(ty), Some(own)) => {
            let is_one = types.same(ty, own);
            Faults::breaks_if(!is_one, rule::PATTERN_FITS_TYPE, span)
        }
        _ => Faults::none(),
    }
}

/// The type of a part of a tuple that has so many.
pub fn part_type_of(
    types: &TypeTable,
    ty: Option<TypeId>,
    count: usize,
    at: usize,
) -> Option<TypeId>
    ensures is { (names : ItemNames) (later : List Row) → IsPrefix types.now later → HasRowIf types.now ty
        → type_if names later result ≡ half.part_of_so_many count at (type_if names later ty) }
    ensures there { HasRowIf types.now ty → HasRowIf types.now result }
{
    match ty {
        Some(ty) => part_of_type(types, ty, count, at),
        None => None,
    }
}

/// The same where it has a type.
fn part_of_type(types: &TypeTable, ty: TypeId, count: usize, at: usize) -> Option<TypeId>
    ensures is { (names : ItemNames) (later : List Row) → IsPrefix types.now later
        → HasRow types.now ty → type_if names later result ≡ half.part_of_so_many count at (Some (type_at names later ty)) }
    ensures there { HasRow types.now ty → HasRowIf types.now result }
{
    match types.row(ty) {
        Some(row) => part_of_row(row, count, at),
        None => None,
    }
}

fn part_of_row(row: &TypeRow, count: usize, at: usize) -> Option<TypeId>
    ensures { result ≡ and_then (half.parts_in count row.now) (λ parts. slice_get parts at) }
{
    match row {
        TypeRow::Tuple(parts) => if parts.len() == count {
            id_at(parts.as_slice(), at)
        } else {
            None
        },
        _ => None,
    }
}

fn id_at(parts: &[TypeId], at: usize) -> Option<TypeId>
    ensures { result ≡ slice_get parts.now at }
{
    if at < parts.len() {
        Some(parts[at])
    } else {
        None
    }
}

/// A tuple before its parts: what it is matched with is a tuple of as many.
pub fn tuple_pattern(
    types: &TypeTable,
    span: Span,
    ty: Option<TypeId>,
    count: usize,
) -> PatternTyping
    ensures { (names : ItemNames) (later : List Row) (bound : List (List ℕ)) (locals : List Typed) → IsPrefix types.now later → HasRowIf types.now ty
        → IsPattern result (half.tuple_head span count (type_if names later ty) bound locals) }
{
    bound_pattern(tuple_faults(types, span, ty, count))
}

/// It is no tuple of so many.
fn tuple_faults(types: &TypeTable, span: Span, ty: Option<TypeId>, count: usize) -> Faults
    ensures { (names : ItemNames) (later : List Row) → IsPrefix types.now later → HasRowIf types.now ty
        → result ≡ seen (the.tuple_faults span (type_if names later ty) (the.part_types count (type_if names later ty))) }
{
    match ty {
        Some(ty) => {
            let has = has_so_many(types, ty, count);
            Faults::breaks_if(!has, rule::PATTERN_FITS_TYPE, span)
        }
        None => Faults::none(),
    }
}

fn has_so_many(types: &TypeTable, ty: TypeId, count: usize) -> bool
    ensures { (names : ItemNames) (later : List Row) → IsPrefix types.now later → HasRow types.now ty → result ≡ the.is_there (the.part_types count (Some (type_at names later ty))) }
{
    match types.row(ty) {
        Some(row) => row_has_so_many(row, count),
        None => false,
    }
}

fn row_has_so_many(row: &TypeRow, count: usize) -> bool
    ensures { result ≡ the.is_there (half.parts_in count row.now) }
{
    match row {
        TypeRow::Tuple(parts) => parts.len() == count,
        _ => false,
    }
}

impl PatternTyping {
    /// With one part more.
    pub fn and(self, part: PatternTyping) -> PatternTyping
        ensures { (x y : PatternSeen) → IsPattern self x → IsPattern part y → IsPattern result (the.both_patterns x y) }
    {
        PatternTyping {
            faults: self.faults.and(part.faults),
            size: plus_size(self.size, part.size),
            is_known: both(self.is_known, part.is_known),
            is_sure: both(self.is_sure, part.is_sure),
        }
    }
}
