//! Calls of builtins and of functions from their operands.

ghost use Rattle.std.specs.Prelude.{◌≡◌, [], List, Option, Some, IfOk, OnOk, OnErr, map, min, if◌then◌else◌};
ghost use Rattle.base.specs.Lists.Prefix.{IsPrefix};
ghost use Rattle.xb_span.specs.declared.fault.Fault.{Fault};
ghost use Rattle.dslx_meaning.specs.Types.{bool_type as the_bool};
ghost use Rattle.dslx_meaning.specs.declared.ty.DslxType.{DslxType};
ghost use Rattle.dslx_meaning.specs.Rules.CallRules as the;
ghost use Rattle.dslx_meaning.specs.Rules.TypeEnvs.{Instance, faults_of_all as the_faults};
ghost use Rattle.dslx_check_rules.specs.Seen.{seen};
ghost use Rattle.dslx_check_rules.specs.Interned.{AreDistinct, HasRowIf, ItemNames, KeepsItems, type_if};
ghost use Rattle.dslx_check_rules.specs.declared.table.row.TypeRow.{TypeRow as Row};
ghost use Rattle.dslx_check_rules.specs.Nodes.Parts.{ArePlaced, FromAll, FromOne, FromThree, IsPart, Pairs, Placed};
ghost use Rattle.dslx_check_rules.specs.Control.Calls as half;

use crate::nodes::lists::{all_typings, faults_of_all};
use crate::nodes::operators::if_there;
use crate::nodes::{ConstantTyping, Spanned, settle};
use crate::{
    Faults, TypeId, TypeTable, Typing, element_type, one_and, plus_size, rule, unless_array,
    unless_bits, unless_unsigned, wanted_faults,
};
use dslx_meaning::BitKind;
use std::alloc::{AllocError, Global};
use xb_span::Span;

/// A parametric argument that is written.
#[derive(Drop)]
pub struct ParametricArgument {
    pub span: Span,
    pub constant: ConstantTyping,
}

/// The faults of the parametric arguments that are written.
pub fn given_faults(given: &[ParametricArgument]) -> Faults
    ensures { (names : ItemNames) (rows later : List Row) (xs : List the.ParametricArgument) → half.AreGiven names rows later given.now xs
        → result ≡ seen (the_faults (the.given_judgements xs)) }
{
    let mut faults = Faults::none();
    'given: for argument in given {
        faults = faults.and(argument.constant.typing.faults);
    }
    faults
}

/// A call with another number of arguments than is declared. These are the faults of its parts, and what it breaks otherwise.
pub fn wrong_call_typing(types: &TypeTable, span: Span, parts: Faults, more: Faults) -> Typing
    ensures { (names : ItemNames) (later : List Row) (fs ms : List Fault) (reached : List Instance) → IsPrefix types.now later → parts ≡ seen fs → more ≡ seen ms
        → IsPart names types.now later result (half.wrong_call_of span fs ms reached) }
{
    let own = Faults::breaks(rule::ARGUMENTS_FIT, span).and(more);
    let faults = parts.and(own);
    settle(types, span, None, faults, None)
}

/// A call of something that isn't declared.
pub fn undeclared_call_typing(types: &TypeTable, span: Span, name: Span, parts: Faults) -> Typing
    ensures { (names : ItemNames) (later : List Row) (fs : List Fault) (reached : List Instance) → IsPrefix types.now later → parts ≡ seen fs
        → IsPart names types.now later result (half.undeclared_call_of span name fs reached) }
{
    let own = Faults::breaks(rule::NAME_IS_DECLARED, name);
    let faults = parts.and(own);
    settle(types, span, None, faults, None)
}

/// A builtin of one operand that is bits. It gives bits of the same type, or `bool`.
pub fn counting_typing(
    types: &mut TypeTable,
    span: Span,
    operands: &[Spanned],
    gives_bool: bool,
) -> Result<Typing, AllocError>
    ensures typed { IfOk result (λ j. FromAll (half.counting_of span gives_bool) types.old types.new operands.now j) }
    ensures items { OnOk result (KeepsItems types.old types.new) }
    ensures grows { OnOk result (IsPrefix types.old types.new) }
    ensures stays { OnErr result (types.new ≡ types.old) }
{
    match operands {
        [] => Ok(wrong_operands_typing(types, span, operands)),
        [operand] => counted_typing(types, span, *operand, gives_bool),
        [_, _, ..] => Ok(wrong_operands_typing(types, span, operands)),
    }
}

/// The same of one operand.
fn counted_typing(
    types: &mut TypeTable,
    span: Span,
    operand: Spanned,
    gives_bool: bool,
) -> Result<Typing, AllocError>
    ensures typed { IfOk result (λ j. FromOne (half.counted_of span operand.span gives_bool) types.old types.new operand.typing j) }
    ensures items { OnOk result (KeepsItems types.old types.new) }
    ensures grows { OnOk result (IsPrefix types.old types.new) }
    ensures stays { OnErr result (types.new ≡ types.old) }
{
    let own = unless_bits(
        types,
        rule::BUILTIN_OPERANDS,
        operand.span,
        operand.typing.ty,
    );
    let given = counted_type(types, operand.typing.ty, gives_bool)?;
    let ty = if_there(operand.typing.ty, given);
    let faults = operand.typing.faults.and(own);
    let size = one_and(operand.typing.size);
    Ok(settle(types, span, ty, faults, size))
}

/// `bool`, or this type.
fn counted_type(
    types: &mut TypeTable,
    ty: Option<TypeId>,
    gives_bool: bool,
) -> Result<Option<TypeId>, AllocError>
    ensures is { IfOk result (λ t. (names : ItemNames) (later : List Row) → IsPrefix types.new later → type_if names later t ≡ half.counted_type gives_bool (type_if names later ty)) }
    ensures there { IfOk result (λ t. HasRowIf types.old ty → HasRowIf types.new t) }
    ensures items { OnOk result (KeepsItems types.old types.new) }
    ensures grows { OnOk result (IsPrefix types.old types.new) }
    ensures stays { OnErr result (types.new ≡ types.old) }
{
    if gives_bool { bool_type(types) } else { Ok(ty) }
}

fn bool_type(types: &mut TypeTable) -> Result<Option<TypeId>, AllocError>
    ensures is { IfOk result (λ t. (names : ItemNames) (later : List Row) → IsPrefix types.new later → type_if names later t ≡ Some the_bool) }
    ensures there { IfOk result (λ t. HasRowIf types.new t) }
    ensures items { OnOk result (KeepsItems types.old types.new) }
    ensures grows { OnOk result (IsPrefix types.old types.new) }
    ensures stays { OnErr result (types.new ≡ types.old) }
{
    let ty = types.bits(BitKind {
        signed: false,
        width: 1,
    })?;
    Ok(Some(ty))
}

/// A builtin with another number of operands than it has.
fn wrong_operands_typing(types: &TypeTable, span: Span, operands: &[Spanned]) -> Typing
    ensures { FromAll (half.wrong_operands_of span) types.now types.now operands.now result }
{
    let parts = faults_of_all(operands);
    wrong_call_typing(types, span, parts, Faults::none())
}

/// `update`: an array, an index, and a value of its elements' type.
pub fn updating_typing(types: &TypeTable, span: Span, operands: &[Spanned]) -> Typing
    ensures { FromAll (half.updating_of span) types.now types.now operands.now result }
{
    match operands {
        [] => wrong_operands_typing(types, span, operands),
        [_] => wrong_operands_typing(types, span, operands),
        [_, _] => wrong_operands_typing(types, span, operands),
        [array, place, value] => updated_typing(types, span, *array, *place, *value),
        [_, _, _, _, ..] => wrong_operands_typing(types, span, operands),
    }
}

fn updated_typing(
    types: &TypeTable,
    span: Span,
    array: Spanned,
    place: Spanned,
    value: Spanned,
) -> Typing
    ensures { FromThree (half.updated_of span array.span place.span value.span) types.now types.now array.typing place.typing value.typing result }
{
    let (a, k, v) = (array.typing, place.typing, value.typing);
    let first = unless_array(types, rule::BUILTIN_OPERANDS, array.span, a.ty);
    let second = unless_unsigned(types, rule::BUILTIN_OPERANDS, place.span, k.ty);
    let element = element_type(types, a.ty);
    let third = update_faults(types, value.span, element, v.ty);
    let parts = a.faults.and(k.faults).and(v.faults);
    let faults = parts.and(first).and(second).and(third);
    let whole = if_there(v.ty, a.ty);
    let ty = if_there(k.ty, whole);
    let rest = plus_size(k.size, v.size);
    let size = one_and(plus_size(a.size, rest));
    settle(types, span, ty, faults, size)
}

/// A value of another type than the array's elements.
fn update_faults(
    types: &TypeTable,
    span: Span,
    element: Option<TypeId>,
    value: Option<TypeId>,
) -> Faults
    ensures { (names : ItemNames) (later : List Row) → AreDistinct names → IsPrefix types.now later → HasRowIf types.now element → HasRowIf types.now value
        → result ≡ seen (the.update_faults span (type_if names later element) (type_if names later value)) }
{
    match (element, value) {
        (Some(element), Some(value)) => {
            let is_one = types.same(element, value);
            Faults::breaks_if(!is_one, rule::BUILTIN_OPERANDS, span)
        }
        _ => Faults::none(),
    }
}

/// What is known of the callee at a call: whether rule 3 is broken at the call and rule 10, what its parametrics break, what is found in
/// the other declaration, its signature, and its body's size.
#[derive(Clone, Copy)]
pub struct CalleeParts<'p> {
    pub is_cyclic: bool,
    pub is_wrong: bool,
    pub parametrics: Faults,
    pub declared: Faults,
    pub arguments: &'p [Option<TypeId>],
    pub result: Option<TypeId>,
    pub size: Option<u32>,
}

/// A call of a function with as many arguments as it has. These are the faults of its parametric arguments.
pub fn right_call_typing(
    types: &TypeTable,
    span: Span,
    given: Faults,
    operands: &[Spanned],
    callee: &CalleeParts,
) -> Typing
    ensures { half.FromCall span types.now given callee.now operands.now result }
{
    let all = all_typings(operands);
    let cyclic = Faults::breaks_if(callee.is_cyclic, rule::NO_ITEM_REACHES_ITSELF, span);
    let declared = declared_faults(callee);
    let wrong = Faults::breaks_if(callee.is_wrong, rule::ARGUMENTS_FIT, span);
    let fitting = fitting_faults(types, callee, operands);
    let parts = given.and(all.faults);
    let before = parts.and(cyclic).and(callee.parametrics);
    let faults = before.and(declared).and(wrong).and(fitting);
    let ty = all.when_all(callee.result);
    let size = one_and(plus_size(all.size, callee.size));
    settle(types, span, ty, faults, size)
}

/// What is found in the other declaration, unless the call is refused.
fn declared_faults(callee: &CalleeParts) -> Faults
    ensures { result ≡ (if callee.now.is_cyclic then seen [] else if callee.now.is_wrong then seen [] else callee.now.declared) }
{
    if callee.is_cyclic || callee.is_wrong {
        Faults::none()
    } else {
        callee.declared
    }
}

/// Operands of other types than are declared, where the parametrics are right.
fn fitting_faults(types: &TypeTable, callee: &CalleeParts, operands: &[Spanned]) -> Faults
    ensures { (names : ItemNames) (later : List Row) (c : half.CalleeSeen) (xs : List Placed) → AreDistinct names → IsPrefix types.now later → half.IsCallee names types.now later callee.now c
        → ArePlaced names types.now later operands.now xs → result ≡ seen (if c.is_wrong then [] else half.misfits c.arguments xs) }
{
    if callee.is_wrong {
        Faults::none()
    } else {
        operand_faults(types, callee.arguments, operands)
    }
}

/// Operands that have another type than is declared.
pub fn operand_faults(
    types: &TypeTable,
    arguments: &[Option<TypeId>],
    operands: &[Spanned],
) -> Faults
    ensures { (names : ItemNames) (later : List Row) (ts : List (Option DslxType)) (xs : List Placed) → AreDistinct names → IsPrefix types.now later
        → Pairs (half.IsTypeIf names types.now later) arguments.now ts → ArePlaced names types.now later operands.now xs → result ≡ seen (half.misfits ts xs) }
{
    let count = lesser(arguments.len(), operands.len());
    let mut faults = Faults::none();
    'operands: for i in 0..count {
        let operand = operands[i];
        let own = wanted_faults(types, operand.span, arguments[i], operand.typing.ty);
        faults = faults.and(own);
    }
    faults
}

fn lesser(a: usize, b: usize) -> usize
    ensures { result ≡ min a b }
{
    if a < b { a } else { b }
}

/// The types of operands.
pub fn types_of(alloc: Global, operands: &[Spanned]) -> Result<Vec<Option<TypeId>>, AllocError>
    ensures { IfOk result (λ types. types.items ≡ map (λ operand. operand.typing.ty) operands.now) }
{
    let mut types = Vec::new(alloc);
    'operands: for operand in operands {
        types.push(operand.typing.ty)?;
    }
    Ok(types)
}
