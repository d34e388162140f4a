//! The rules of operands: each by its type if it has one.

ghost use Rattle.std.specs.Prelude.{◌≡◌, ◌&&◌, not, List, Some};
ghost use Rattle.base.specs.Lists.Prefix.{IsPrefix};
ghost use Rattle.dslx_meaning.specs.Types.{holds_token as holds, is_token_type};
ghost use Rattle.dslx_meaning.specs.Rules.TypeRules as written;
ghost use Rattle.dslx_meaning.specs.Rules.CallRules as calls;
ghost use Rattle.dslx_meaning.specs.Rules.ConstantRules as constants;
ghost use Rattle.dslx_meaning.specs.Rules.OperatorRules as operators;
ghost use Rattle.dslx_meaning.specs.Rules.AggregateRules as aggregates;
ghost use Rattle.dslx_check_rules.specs.Seen.{seen};
ghost use Rattle.dslx_check_rules.specs.declared.table.row.TypeRow.{TypeRow as Row};
ghost use Rattle.dslx_check_rules.specs.Interned.{AreDistinct, HasRow, HasRowIf, ItemNames, type_at, type_if};

use crate::faults::Faults;
use crate::kinds::{
    holds_token, is_array, is_bits, is_bits_or_enum, is_bool, is_token, is_unit, is_unsigned,
};
use crate::rule;
use crate::table::{TypeId, TypeTable};
use xb_span::Span;

/// A part that has a type breaks the rule unless that is bits.
pub fn unless_bits(types: &TypeTable, rule: u16, span: Span, ty: Option<TypeId>) -> Faults
    ensures { (names : ItemNames) (later : List Row) → IsPrefix types.now later → HasRowIf types.now ty
        → result ≡ seen (operators.unless_type operators.is_bits rule span (type_if names later ty)) }
{
    match ty {
        None => Faults::none(),
        Some(ty) => Faults::breaks_if(!is_bits(types, ty), rule, span),
    }
}

/// A part that has a type breaks the rule unless that is bits or an enum.
pub fn unless_bits_or_enum(types: &TypeTable, rule: u16, span: Span, ty: Option<TypeId>) -> Faults
    ensures { (names : ItemNames) (later : List Row) → IsPrefix types.now later → HasRowIf types.now ty
        → result ≡ seen (operators.unless_type operators.is_bits_or_enum rule span (type_if names later ty)) }
{
    match ty {
        None => Faults::none(),
        Some(ty) => Faults::breaks_if(!is_bits_or_enum(types, ty), rule, span),
    }
}

/// A part that has a type breaks the rule unless that is unsigned.
pub fn unless_unsigned(types: &TypeTable, rule: u16, span: Span, ty: Option<TypeId>) -> Faults
    ensures { (names : ItemNames) (later : List Row) → IsPrefix types.now later → HasRowIf types.now ty
        → result ≡ seen (operators.unless_type constants.is_unsigned rule span (type_if names later ty)) }
{
    match ty {
        None => Faults::none(),
        Some(ty) => Faults::breaks_if(!is_unsigned(types, ty), rule, span),
    }
}

/// A part that has a type breaks the rule unless that is `bool`.
pub fn unless_bool(types: &TypeTable, rule: u16, span: Span, ty: Option<TypeId>) -> Faults
    ensures { (names : ItemNames) (later : List Row) → IsPrefix types.now later → HasRowIf types.now ty
        → result ≡ seen (operators.unless_type operators.is_bool rule span (type_if names later ty)) }
{
    match ty {
        None => Faults::none(),
        Some(ty) => Faults::breaks_if(!is_bool(types, ty), rule, span),
    }
}

/// A part that has a type breaks the rule unless that is an array.
pub fn unless_array(types: &TypeTable, rule: u16, span: Span, ty: Option<TypeId>) -> Faults
    ensures { (names : ItemNames) (later : List Row) → IsPrefix types.now later → HasRowIf types.now ty
        → result ≡ seen (operators.unless_type aggregates.is_array rule span (type_if names later ty)) }
{
    match ty {
        None => Faults::none(),
        Some(ty) => Faults::breaks_if(!is_array(types, ty), rule, span),
    }
}

/// A value that has a type hasn't the one that is wanted, where that is known.
pub fn wanted_faults(
    types: &TypeTable,
    span: Span,
    wanted: Option<TypeId>,
    ty: Option<TypeId>,
) -> Faults
    ensures { (names : ItemNames) (later : List Row) → AreDistinct names → IsPrefix types.now later → HasRowIf types.now wanted → HasRowIf types.now ty
        → result ≡ seen (aggregates.wanted_faults span (type_if names later wanted) (type_if names later ty)) }
{
    match (wanted, ty) {
        (Some(wanted), Some(ty)) => {
            let is_wanted = types.same(wanted, ty);
            Faults::breaks_if(!is_wanted, rule::VALUE_HAS_ITS_TYPE, span)
        }
        _ => Faults::none(),
    }
}

/// `()` stands inside another type.
pub fn unit_faults(types: &TypeTable, span: Span, ty: Option<TypeId>) -> Faults
    ensures { (names : ItemNames) (later : List Row) → IsPrefix types.now later → HasRowIf types.now ty → result ≡ seen (written.unit_faults span (type_if names later ty)) }
{
    match ty {
        None => Faults::none(),
        Some(ty) => Faults::breaks_if(is_unit(types, ty), rule::NO_UNIT_INSIDE, span),
    }
}

/// A receive's pair doesn't stand where a token may.
pub fn held_faults(types: &TypeTable, span: Span, ty: Option<TypeId>) -> Faults
    ensures { (names : ItemNames) (later : List Row) → IsPrefix types.now later → HasRowIf types.now ty → result ≡ seen (calls.held_faults span (type_if names later ty)) }
{
    match ty {
        None => Faults::none(),
        Some(ty) => Faults::breaks_if(is_pair(types, ty), rule::EFFECT_STANDS_ALONE, span),
    }
}

/// Whether it is a receive's pair.
fn is_pair(types: &TypeTable, ty: TypeId) -> bool
    ensures { (names : ItemNames) (later : List Row) → IsPrefix types.now later → HasRow types.now ty
        → result ≡ (holds (type_at names later ty) && not (is_token_type (type_at names later ty))) }
{
    let is_one = is_token(types, ty);
    holds_token(types, ty) && !is_one
}

/// Where a token has to stand.
pub fn token_faults(types: &TypeTable, span: Span, ty: Option<TypeId>) -> Faults
    ensures { (names : ItemNames) (later : List Row) → IsPrefix types.now later → HasRowIf types.now ty → result ≡ seen (calls.token_faults span (type_if names later ty)) }
{
    match ty {
        None => Faults::none(),
        Some(ty) => token_expected(types, span, ty),
    }
}

/// The same of a part that has a type.
fn token_expected(types: &TypeTable, span: Span, ty: TypeId) -> Faults
    ensures { (names : ItemNames) (later : List Row) → IsPrefix types.now later → HasRow types.now ty → result ≡ seen (calls.token_faults span (Some (type_at names later ty))) }
{
    let is_pair = is_pair(types, ty);
    let is_held = holds_token(types, ty);
    let held = Faults::breaks_if(is_pair, rule::EFFECT_STANDS_ALONE, span);
    let other = Faults::breaks_if(!is_held, rule::VALUE_HAS_ITS_TYPE, span);
    held.and(other)
}
