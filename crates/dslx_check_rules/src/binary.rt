//! The rules of binary operators, by the types of the operands that have one.

ghost use Rattle.std.specs.Prelude.{◌≡◌, ◌+◌, ◌++◌, List, Some, IfOk, OnOk, OnErr};
ghost use Rattle.base.specs.Lists.Prefix.{IsPrefix};
ghost use Rattle.dslx_meaning.specs.Types.{unsigned};
ghost use Rattle.dslx_meaning.specs.Rules.ConstantRules as constants;
ghost use Rattle.dslx_meaning.specs.Rules.ControlRules as control;
ghost use Rattle.dslx_meaning.specs.Rules.OperatorRules as the;
ghost use Rattle.dslx_meaning.specs.Rules.RuleNumbers as asks;
ghost use Rattle.dslx_check_rules.specs.Inner.Results.{binary_result};
ghost use Rattle.dslx_check_rules.specs.Seen.{seen};
ghost use Rattle.dslx_check_rules.specs.declared.table.row.TypeRow.{TypeRow as Row};
ghost use Rattle.dslx_check_rules.specs.Interned.{AreDistinct, HasRow, HasRowIf, ItemNames, KeepsItems, type_at, type_if};

use crate::faults::Faults;
use crate::kinds::{is_bits, is_bits_or_enum, is_unsigned, width_of_type};
use crate::operands::{unless_bits, unless_bool, unless_unsigned};
use crate::rule;
use crate::table::{TypeId, TypeTable};
use dslx_meaning::BitKind;
use dslx_tree::Binary;
use std::alloc::AllocError;
use xb_span::Span;

/// An operand: its span, and its type if it has one.
#[derive(Clone, Copy)]
pub struct Operand {
    pub span: Span,
    pub ty: Option<TypeId>,
}

/// The rules that an operator breaks: at its own span, or at an operand's.
pub fn binary_faults(
    types: &TypeTable,
    op: Binary,
    span: Span,
    left: Operand,
    right: Operand,
) -> Faults
    ensures { (names : ItemNames) (later : List Row) → AreDistinct names → IsPrefix types.now later → HasRowIf types.now left.ty → HasRowIf types.now right.ty
        → result ≡ seen (the.binary_faults op span left.span (type_if names later left.ty) right.span (type_if names later right.ty)) }
{
    match op {
        Binary::Mul | Binary::Add | Binary::Sub | Binary::And | Binary::Xor | Binary::Or => {
            unless_one_bit_type(types, rule::OPERANDS_OF_ONE_TYPE, span, left.ty, right.ty)
        }
        Binary::Div | Binary::Rem => unless_one_unsigned_type(types, span, left.ty, right.ty),
        Binary::Lt | Binary::Le | Binary::Gt | Binary::Ge => {
            unless_one_bit_type(types, rule::COMPARISON_OF_ONE_TYPE, span, left.ty, right.ty)
        }
        Binary::Eq | Binary::Ne => unless_one_comparable_type(types, span, left.ty, right.ty),
        Binary::Shl | Binary::Shr => shift_faults(types, left, right),
        Binary::Concat => concat_faults(types, left, right),
        Binary::Both | Binary::Either => condition_faults(types, left, right),
    }
}

/// The operands that have types are of one bit type.
pub fn unless_one_bit_type(
    types: &TypeTable,
    rule: u16,
    span: Span,
    left: Option<TypeId>,
    right: Option<TypeId>,
) -> Faults
    ensures { (names : ItemNames) (later : List Row) → AreDistinct names → IsPrefix types.now later → HasRowIf types.now left → HasRowIf types.now right
        → result ≡ seen (the.unless_types the.one_bit_type rule span (type_if names later left) (type_if names later right)) }
{
    match (left, right) {
        (Some(t), Some(u)) => Faults::breaks_if(!one_bit_type(types, t, u), rule, span),
        _ => Faults::none(),
    }
}

/// Whether the two are one bit type.
pub fn one_bit_type(types: &TypeTable, left: TypeId, right: TypeId) -> bool
    ensures { (names : ItemNames) (later : List Row) → AreDistinct names → IsPrefix types.now later → HasRow types.now left → HasRow types.now right
        → result ≡ the.one_bit_type (type_at names later left) (type_at names later right) }
{
    let is_one = types.same(left, right);
    is_bits(types, left) && is_one
}

/// The type of the ends of a range, where they have one.
pub fn same_ends(types: &TypeTable, from: Option<TypeId>, to: Option<TypeId>) -> Option<TypeId>
    ensures is { (names : ItemNames) (later : List Row) → AreDistinct names → IsPrefix types.now later → HasRowIf types.now from → HasRowIf types.now to
        → type_if names later result ≡ control.same_ends (type_if names later from) (type_if names later to) }
    ensures there { HasRowIf types.now from → HasRowIf types.now result }
{
    match (from, to) {
        (Some(t), Some(u)) => same_end(types, t, u),
        _ => None,
    }
}

/// The same where both have a type.
fn same_end(types: &TypeTable, from: TypeId, to: TypeId) -> Option<TypeId>
    ensures is { (names : ItemNames) (later : List Row) → AreDistinct names → IsPrefix types.now later → HasRow types.now from → HasRow types.now to
        → type_if names later result ≡ control.same_ends (Some (type_at names later from)) (Some (type_at names later to)) }
    ensures there { HasRow types.now from → HasRowIf types.now result }
{
    if one_bit_type(types, from, to) {
        Some(from)
    } else {
        None
    }
}

/// The operands that have types are of one unsigned type.
fn unless_one_unsigned_type(
    types: &TypeTable,
    span: Span,
    left: Option<TypeId>,
    right: Option<TypeId>,
) -> Faults
    ensures { (names : ItemNames) (later : List Row) → AreDistinct names → IsPrefix types.now later → HasRowIf types.now left → HasRowIf types.now right
        → result ≡ seen (the.unless_types the.one_unsigned_type asks.DIVISION_OF_ONE_UNSIGNED_TYPE span (type_if names later left) (type_if names later right)) }
{
    match (left, right) {
        (Some(t), Some(u)) => {
            let is_one = one_unsigned_type(types, t, u);
            Faults::breaks_if(!is_one, rule::DIVISION_OF_ONE_UNSIGNED_TYPE, span)
        }
        _ => Faults::none(),
    }
}

fn one_unsigned_type(types: &TypeTable, left: TypeId, right: TypeId) -> bool
    ensures { (names : ItemNames) (later : List Row) → AreDistinct names → IsPrefix types.now later → HasRow types.now left → HasRow types.now right
        → result ≡ the.one_unsigned_type (type_at names later left) (type_at names later right) }
{
    let is_one = types.same(left, right);
    is_unsigned(types, left) && is_one
}

/// The operands of `==` and `!=` that have types are of one bit or enum type.
fn unless_one_comparable_type(
    types: &TypeTable,
    span: Span,
    left: Option<TypeId>,
    right: Option<TypeId>,
) -> Faults
    ensures { (names : ItemNames) (later : List Row) → AreDistinct names → IsPrefix types.now later → HasRowIf types.now left → HasRowIf types.now right
        → result ≡ seen (the.unless_types the.one_comparable_type asks.COMPARISON_OF_ONE_TYPE span (type_if names later left) (type_if names later right)) }
{
    match (left, right) {
        (Some(t), Some(u)) => {
            let is_one = one_comparable_type(types, t, u);
            Faults::breaks_if(!is_one, rule::COMPARISON_OF_ONE_TYPE, span)
        }
        _ => Faults::none(),
    }
}

fn one_comparable_type(types: &TypeTable, left: TypeId, right: TypeId) -> bool
    ensures { (names : ItemNames) (later : List Row) → AreDistinct names → IsPrefix types.now later → HasRow types.now left → HasRow types.now right
        → result ≡ the.one_comparable_type (type_at names later left) (type_at names later right) }
{
    let is_one = types.same(left, right);
    is_bits_or_enum(types, left) && is_one
}

/// Bits are shifted, by an unsigned amount.
fn shift_faults(types: &TypeTable, left: Operand, right: Operand) -> Faults
    ensures { (names : ItemNames) (later : List Row) → IsPrefix types.now later → HasRowIf types.now left.ty → HasRowIf types.now right.ty
        → result ≡ seen (the.unless_type the.is_bits asks.SHIFT_BY_UNSIGNED left.span (type_if names later left.ty)
        ++ the.unless_type constants.is_unsigned asks.SHIFT_BY_UNSIGNED right.span (type_if names later right.ty)) }
{
    let first = unless_bits(types, rule::SHIFT_BY_UNSIGNED, left.span, left.ty);
    let second = unless_unsigned(types, rule::SHIFT_BY_UNSIGNED, right.span, right.ty);
    first.and(second)
}

/// What is joined is unsigned.
fn concat_faults(types: &TypeTable, left: Operand, right: Operand) -> Faults
    ensures { (names : ItemNames) (later : List Row) → IsPrefix types.now later → HasRowIf types.now left.ty → HasRowIf types.now right.ty
        → result ≡ seen (the.unless_type constants.is_unsigned asks.CONCAT_OF_UNSIGNED left.span (type_if names later left.ty)
        ++ the.unless_type constants.is_unsigned asks.CONCAT_OF_UNSIGNED right.span (type_if names later right.ty)) }
{
    let first = unless_unsigned(types, rule::CONCAT_OF_UNSIGNED, left.span, left.ty);
    let second = unless_unsigned(types, rule::CONCAT_OF_UNSIGNED, right.span, right.ty);
    first.and(second)
}

/// Both operands of `&&` and `||` are `bool`.
fn condition_faults(types: &TypeTable, left: Operand, right: Operand) -> Faults
    ensures { (names : ItemNames) (later : List Row) → IsPrefix types.now later → HasRowIf types.now left.ty → HasRowIf types.now right.ty
        → result ≡ seen (the.unless_type the.is_bool asks.CONDITION_IS_BOOL left.span (type_if names later left.ty)
        ++ the.unless_type the.is_bool asks.CONDITION_IS_BOOL right.span (type_if names later right.ty)) }
{
    let first = unless_bool(types, rule::CONDITION_IS_BOOL, left.span, left.ty);
    let second = unless_bool(types, rule::CONDITION_IS_BOOL, right.span, right.ty);
    first.and(second)
}

/// The type of what an operator gives, where no rule is broken.
pub fn binary_type(
    types: &mut TypeTable,
    op: Binary,
    left: Option<TypeId>,
    right: Option<TypeId>,
) -> Result<Option<TypeId>, AllocError>
    ensures is { IfOk result (λ ty. (names : ItemNames) (later : List Row) → IsPrefix types.new later → HasRowIf types.old left → HasRowIf types.old right
        → type_if names later ty ≡ the.binary_type op (type_if names later left) (type_if names later right)) }
    ensures there { IfOk result (λ ty. HasRowIf types.old left → HasRowIf types.new ty) }
    ensures items { KeepsItems types.old types.new }
    ensures grows { OnOk result (IsPrefix types.old types.new) }
    ensures stays { OnErr result (types.new ≡ types.old) }
{
    match (left, right) {
        (Some(t), Some(u)) => type_of_both(types, op, t, u),
        _ => Ok(None),
    }
}

/// The same where both operands have a type.
fn type_of_both(
    types: &mut TypeTable,
    op: Binary,
    left: TypeId,
    right: TypeId,
) -> Result<Option<TypeId>, AllocError>
    ensures is { IfOk result (λ ty. (names : ItemNames) (later : List Row) → IsPrefix types.new later → HasRow types.old left → HasRow types.old right
        → type_if names later ty ≡ the.binary_type op (Some (type_at names later left)) (Some (type_at names later right))) }
    ensures there { IfOk result (λ ty. HasRow types.old left → HasRowIf types.new ty) }
    ensures items { KeepsItems types.old types.new }
    ensures grows { OnOk result (IsPrefix types.old types.new) }
    ensures stays { OnErr result (types.new ≡ types.old) }
{
    match result_of(op) {
        BinaryResult::Left => Ok(Some(left)),
        BinaryResult::Joined => Ok(Some(joined_type(types, left, right)?)),
        BinaryResult::Bool => Ok(Some(types.bits(BOOL)?)),
    }
}

/// Bits as wide as both together. Past 2^128 - 1 there is no memory for them.
fn joined_type(types: &mut TypeTable, left: TypeId, right: TypeId) -> Result<TypeId, AllocError>
    ensures is { IfOk result (λ ty. (names : ItemNames) (later : List Row) → IsPrefix types.new later → HasRow types.old left → HasRow types.old right
        → type_at names later ty ≡ unsigned (the.width_of_type (type_at names later left) + the.width_of_type (type_at names later right))) }
    ensures there { IfOk result (λ ty. HasRow types.new ty) }
    ensures items { KeepsItems types.old types.new }
    ensures grows { OnOk result (IsPrefix types.old types.new) }
    ensures stays { OnErr result (types.new ≡ types.old) }
{
    let first = width_of_type(types, left);
    let second = width_of_type(types, right);
    match first.checked_add(second) {
        Some(width) => types.bits(BitKind {
            signed: false,
            width,
        }),
        None => Err(AllocError),
    }
}

/// The kind of conditions.
const BOOL: BitKind = BitKind {
    signed: false,
    width: 1,
};

/// What type an operator gives.
#[derive(Clone, Copy)]
pub(crate) enum BinaryResult {
    /// That of its first operand.
    Left,
    /// Bits as wide as both.
    Joined,
    /// `bool`.
    Bool,
}

fn result_of(op: Binary) -> BinaryResult
    ensures { result ≡ binary_result op }
{
    match op {
        Binary::Concat => BinaryResult::Joined,
        Binary::Mul
        | Binary::Add
        | Binary::Sub
        | Binary::And
        | Binary::Xor
        | Binary::Or
        | Binary::Div
        | Binary::Rem
        | Binary::Shl
        | Binary::Shr => BinaryResult::Left,
        Binary::Eq
        | Binary::Ne
        | Binary::Lt
        | Binary::Le
        | Binary::Gt
        | Binary::Ge
        | Binary::Both
        | Binary::Either => BinaryResult::Bool,
    }
}
