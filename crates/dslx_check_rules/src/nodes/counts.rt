//! Widths, sizes and depths, and the types that they are written in.

ghost use Rattle.std.specs.Prelude.{◌≡◌, List, IfOk, OnOk, OnErr};
ghost use Rattle.base.specs.Lists.Prefix.{IsPrefix};
ghost use Rattle.dslx_meaning.specs.Rules.ConstantRules as the;
ghost use Rattle.dslx_check_rules.specs.Seen.{seen};
ghost use Rattle.dslx_check_rules.specs.Interned.{HasRowIf, ItemNames, KeepsItems, type_if};
ghost use Rattle.dslx_check_rules.specs.declared.table.row.TypeRow.{TypeRow as Row};
ghost use Rattle.dslx_check_rules.specs.Nodes.Parts.{CountFrom, FromCount};
ghost use Rattle.dslx_check_rules.specs.Nodes.Nodes.Counts as half;

use crate::nodes::parts::{ConstantTyping, CountTyping, settle};
use crate::{Faults, TypeId, TypeTable, Typing, is_unsigned, rule};
use dslx_meaning::{BitKind, DslxValue};
use dslx_values::unsigned_of;
use std::alloc::AllocError;
use xb_span::Span;

/// A width, a size or a depth: it is unsigned, and above 0.
pub fn count_typing(types: &TypeTable, span: Span, constant: &ConstantTyping) -> CountTyping
    ensures { CountFrom (half.count_from span) types.now constant.now result }
{
    let number = number_of(constant);
    let odd = odd_type(types, span, constant.typing.ty);
    let zero = zero_faults(span, number);
    let typed = constant.typing.with(odd);
    let typing = typed.with(zero);
    let count = above_zero(number);
    CountTyping { typing, count }
}

/// The number that a constant is. A negative one is taken as 0.
fn number_of(constant: &ConstantTyping) -> Option<u128>
    ensures { result ≡ half.number_of constant.now.untyped constant.now.value }
{
    match constant.untyped {
        Some(number) => Some(if number.is_negative { 0 } else { number.value }),
        None => number_of_value(&constant.value),
    }
}

fn number_of_value(value: &Option<DslxValue>) -> Option<u128>
    ensures { result ≡ the.number_of_value value.now }
{
    match value {
        Some(value) => match unsigned_of(value) {
            Some(word) => Some(word.value()),
            None => None,
        },
        None => None,
    }
}

/// A number that a part has as a size: 0 is none.
fn above_zero(number: Option<u128>) -> Option<u128>
    ensures { result ≡ half.above_zero number }
{
    match number {
        Some(0) => None,
        other => other,
    }
}

fn odd_type(types: &TypeTable, span: Span, ty: Option<TypeId>) -> Faults
    ensures { (names : ItemNames) (later : List Row) → IsPrefix types.now later → HasRowIf types.now ty → result ≡ seen (the.count_type_faults span (type_if names later ty)) }
{
    match ty {
        None => Faults::none(),
        Some(ty) => {
            let is_odd = !is_unsigned(types, ty);
            Faults::breaks_if(is_odd, rule::COUNT_IS_POSITIVE, span)
        }
    }
}

pub(crate) fn zero_faults(span: Span, number: Option<u128>) -> Faults
    ensures { result ≡ seen (the.count_faults span number) }
{
    match number {
        None => Faults::none(),
        Some(number) => Faults::breaks_if(number == 0, rule::COUNT_IS_POSITIVE, span),
    }
}

/// Bits of a width that is computed.
pub fn wide_typing(
    types: &mut TypeTable,
    span: Span,
    signed: bool,
    width: CountTyping,
) -> Result<Typing, AllocError>
    ensures typed { IfOk result (λ j. FromCount (half.wide_of span signed) types.old types.new width j) }
    ensures items { OnOk result (KeepsItems types.old types.new) }
    ensures grows { OnOk result (IsPrefix types.old types.new) }
    ensures stays { OnErr result (types.new ≡ types.old) }
{
    match width.count {
        Some(count) => {
            let ty = types.bits(BitKind {
                signed,
                width: count,
            })?;
            Ok(settle(types, span, Some(ty), width.typing.faults, Some(0)))
        }
        None => Ok(settle(types, span, None, width.typing.faults, Some(0))),
    }
}
