//! Parametrics of a call, a spawn or the top.

ghost use Rattle.std.specs.Prelude.{◌≡◌, ◌==◌, List, Some, None, IfOk, OnOk, length, map, slice_get, true, if◌then◌else◌};
ghost use Rattle.std.specs.List.{list_all};
ghost use Rattle.std.specs.Option.{option_copied};
ghost use Rattle.base.specs.Lists.Prefix.{IsPrefix};
ghost use Rattle.dslx_meaning.specs.Lists.{all_some};
ghost use Rattle.dslx_meaning.specs.Rules.CallRules as the;
ghost use Rattle.dslx_meaning.specs.Values.{type_of_value};
ghost use Rattle.dslx_check_rules.specs.Nodes.Nodes.Aggregates as half;
ghost use Rattle.dslx_check_rules.specs.Interned.{AreDistinct, HasRow, HasRowIf, ItemNames, type_at, type_if};
ghost use Rattle.dslx_check_rules.specs.declared.table.row.TypeRow.{TypeRow as Row};
ghost use Rattle.dslx_check_facts.specs.Known.{item_names};
ghost use Rattle.dslx_check_facts.specs.Walks.{shown};
ghost use Rattle.dslx_check_uses.specs.Arguments.{ArgsFrom, Finds};
ghost use Rattle.dslx_check_uses.specs.Inner.Parametrics as seen_by;
ghost use Rattle.dslx_check_uses.specs.Inferring.{name_lent, number_of};

use crate::{Inference, Inferred, first_inferred, is_one, may_have};
use base::texts::Name;
use dslx_check_facts::{
    DefaultThere, Facts, Prefixes, TypingThere, Walk, default_seen, gives_type, parameter_seen,
    untyped_value,
};
use dslx_check_rules::control::calls::ParametricArgument;
use dslx_check_rules::nodes::aggregates::is_in_range;
use dslx_check_rules::nodes::written::unless_unit;
use dslx_check_rules::nodes::{both, either};
use dslx_check_rules::{Faults, TypeId, TypeTable, wanted_faults};
use dslx_meaning::{DslxValue, UntypedLiteral};
use dslx_tree::{Expr, Parametric};
use dslx_values::copy_value;
use std::alloc::AllocError;
use xb_span::Span;
use xb_value::Seq;

/// The callee at a call or a spawn: its item, whether rule 3 is broken there, and whether nothing of its declaration is looked at.
#[derive(Clone, Copy)]
pub struct CalledItem {
    pub item: u32,
    pub is_cyclic: bool,
    pub is_hidden: bool,
}

/// The value of a parametric: known, unknown, or wrong, which rule 10 refuses.
#[derive(Drop)]
enum Resolved {
    Number(DslxValue),
    Unknown,
    Wrong,
}

/// The parametrics of a call or a spawn: their values where they are known, these by the number of a prefix, whether all are known, whether
/// rule 10 is broken, rule 9 at what is given, and what is found in the other declaration.
#[derive(Drop)]
pub struct ParametricArgs {
    pub values: Vec<Option<DslxValue>>,
    pub prefix: u32,
    pub are_known: bool,
    /// Nothing that was asked for is missing; else those behind aren't looked at, and nothing of this is used.
    pub is_whole: bool,
    pub is_wrong: bool,
    pub faults: Faults,
    pub declared: Faults,
    pub reached: Vec<u32>,
}

impl ParametricArgs {
    fn new(f: &Facts, prefixes: &Prefixes) -> ParametricArgs
        ensures { seen_by.IsNoArgs prefixes.now result }
    {
        ParametricArgs {
            values: Vec::new(f.alloc),
            prefix: prefixes.none(),
            are_known: true,
            is_whole: true,
            is_wrong: false,
            faults: Faults::none(),
            declared: Faults::none(),
            reached: Vec::new(f.alloc),
        }
    }

    /// What is found in the other declaration.
    fn note_there(&mut self, faults: Faults, reached: &[u32]) -> Result<(), AllocError>
        ensures { OnOk result (seen_by.NotesThere self.old self.new faults reached.now) }
    {
        self.declared = self.declared.and(faults);
        self.reached.extend_from_slice(reached)?;
        Ok(())
    }

    /// What is found at a parametric's type, where all before it have values.
    fn note_type(&mut self, there: &TypingThere) -> Result<(), AllocError>
        ensures { OnOk result (seen_by.NotesType self.old self.new there.now) }
    {
        let are_known = self.are_known;
        if are_known {
            self.note_there(there.faults, there.reached.as_slice())
        } else {
            Ok(())
        }
    }

    /// The next parametric has this value.
    fn put(&mut self, f: &Facts, w: &mut Walk, found: Resolved) -> Result<(), AllocError>
        ensures { OnOk result (seen_by.PutsValue (shown w.old) (shown w.new) self.old self.new found) }
    {
        let is_known = is_number(&found);
        let is_wrong = is_wrong_value(&found);
        let value = value_of(found);
        let last = copy_if(f, &value)?;
        let prefix = w.prefixes.longer(self.prefix, last)?;
        self.prefix = prefix;
        self.are_known = both(self.are_known, is_known);
        self.is_wrong = either(self.is_wrong, is_wrong);
        self.values.push(value)?;
        Ok(())
    }

    /// The values of all, where all are known.
    pub fn all_values(&self, f: &Facts) -> Result<Option<Seq<DslxValue>>, AllocError>
        ensures { IfOk result (λ values. values ≡ (if self.now.are_known then all_some self.now.values.items else None)) }
    {
        let are_known = self.are_known;
        if are_known {
            values_of(f, self.values.as_slice())
        } else {
            Ok(None)
        }
    }
}

fn values_of(f: &Facts, values: &[Option<DslxValue>]) -> Result<Option<Seq<DslxValue>>, AllocError>
    ensures { IfOk result (λ all. all ≡ all_some values.now) }
{
    let mut all = Vec::new(f.alloc);
    'values: for value in values {
        match value {
            None => return Ok(None),
            Some(value) => {
                let own = copy_value(f.alloc, value)?;
                all.push(own)?;
            }
        }
    }
    Ok(Some(Seq::from_vec(all)))
}

fn is_number(found: &Resolved) -> bool
    ensures { result ≡ seen_by.is_number found.now }
{
    match found {
        Resolved::Number(_) => true,
        Resolved::Unknown => false,
        Resolved::Wrong => false,
    }
}

fn is_wrong_value(found: &Resolved) -> bool
    ensures { result ≡ seen_by.is_wrong_value found.now }
{
    match found {
        Resolved::Number(_) => false,
        Resolved::Unknown => false,
        Resolved::Wrong => true,
    }
}

fn value_of(found: Resolved) -> Option<DslxValue>
    ensures { result ≡ seen_by.value_if found }
{
    match found {
        Resolved::Number(value) => Some(value),
        Resolved::Unknown => None,
        Resolved::Wrong => None,
    }
}

fn copy_if(f: &Facts, value: &Option<DslxValue>) -> Result<Option<DslxValue>, AllocError>
    ensures { IfOk result (λ copy. copy ≡ value.now) }
{
    match value {
        None => Ok(None),
        Some(value) => Ok(Some(copy_value(f.alloc, value)?)),
    }
}

/// Whether the two are one type.
fn same_types(types: &TypeTable, a: Option<TypeId>, b: Option<TypeId>) -> bool
    ensures { (names : ItemNames) (later : List Row) → AreDistinct names → IsPrefix types.now later → HasRowIf types.now a → HasRowIf types.now b
        → result ≡ seen_by.is_same (type_if names later a) (type_if names later b) }
{
    match (a, b) {
        (Some(a), Some(b)) => types.same(a, b),
        _ => false,
    }
}

/// The value of a constant of a type, if it is of the one that is declared.
fn of_type(
    f: &Facts,
    types: &TypeTable,
    declared: Option<TypeId>,
    ty: Option<TypeId>,
    value: &Option<DslxValue>,
) -> Result<Resolved, AllocError>
    ensures { IfOk result (λ r. (later : List Row) → AreDistinct (item_names f.now) → IsPrefix types.now later → HasRowIf types.now declared → HasRowIf types.now ty
        → seen_by.IsResolved r (the.resolved_value (the.of_type (type_if (item_names f.now) later declared) value.now))) }
{
    match value {
        None => Ok(Resolved::Unknown),
        Some(value) => typed_value(f, types, declared, ty, value),
    }
}

/// The value of a constant of a type, if that is the one that is declared. A constant's value is of the constant's type; one that isn't
/// would be refused as for want of memory.
fn typed_value(
    f: &Facts,
    types: &TypeTable,
    declared: Option<TypeId>,
    ty: Option<TypeId>,
    value: &DslxValue,
) -> Result<Resolved, AllocError>
    ensures { IfOk result (λ r. (later : List Row) → AreDistinct (item_names f.now) → IsPrefix types.now later → HasRowIf types.now declared → HasRowIf types.now ty
        → seen_by.IsResolved r (if seen_by.is_same (type_if (item_names f.now) later declared) (Some (type_of_value value.now)) then the.Number value.now else the.Unknown)) }
{
    if is_typed(f, types, ty, value) {
        let is_same = same_types(types, declared, ty);
        value_if(f, is_same, value)
    } else {
        Err(AllocError)
    }
}

/// Whether a value is of this type.
fn is_typed(f: &Facts, types: &TypeTable, ty: Option<TypeId>, value: &DslxValue) -> bool
    ensures { result ≡ true → (later : List Row) → IsPrefix types.now later → type_if (item_names f.now) later ty ≡ Some (type_of_value value.now) }
{
    match ty {
        Some(ty) => gives_type(f, types, ty, value),
        None => false,
    }
}

/// The value, where it is of the type that is wanted.
fn value_if(f: &Facts, is_same: bool, value: &DslxValue) -> Result<Resolved, AllocError>
    ensures { IfOk result (λ r. seen_by.IsResolved r (if is_same then the.Number value.now else the.Unknown)) }
{
    if is_same {
        let own = copy_value(f.alloc, value)?;
        Ok(Resolved::Number(own))
    } else {
        Ok(Resolved::Unknown)
    }
}

/// A number as a value of a type: wrong where it doesn't lie in that.
fn in_type(types: &TypeTable, ty: Option<TypeId>, number: u128) -> Result<Resolved, AllocError>
    ensures { IfOk result (λ r. (names : ItemNames) (later : List Row) → IsPrefix types.now later → HasRowIf types.now ty → seen_by.IsResolved r (the.in_type (type_if names later ty) number)) }
{
    match ty {
        None => Ok(Resolved::Unknown),
        Some(ty) => number_of_type(types, ty, number),
    }
}

fn number_of_type(types: &TypeTable, ty: TypeId, number: u128) -> Result<Resolved, AllocError>
    ensures { IfOk result (λ r. (names : ItemNames) (later : List Row) → IsPrefix types.now later → HasRow types.now ty → seen_by.IsResolved r (the.in_type (Some (type_at names later ty)) number)) }
{
    let literal = UntypedLiteral {
        is_negative: false,
        value: number,
    };
    let found = untyped_value(types, ty, literal)?;
    match found {
        Some(value) => Ok(Resolved::Number(value)),
        None => Ok(without_value(types, ty, literal)),
    }
}

/// What a number without a value comes to: its type may be wider than values are.
fn without_value(types: &TypeTable, ty: TypeId, number: UntypedLiteral) -> Resolved
    ensures { (names : ItemNames) (later : List Row) → IsPrefix types.now later → HasRow types.now ty
        → seen_by.IsResolved result (if half.is_in_range (type_at names later ty) number then the.Unknown else the.Wrong) }
{
    if is_in_range(types, ty, number) {
        Resolved::Unknown
    } else {
        Resolved::Wrong
    }
}

/// The number that all operands infer, of which this is the first, as a value of the parametric's type.
fn one_inferred(
    types: &TypeTable,
    ty: Option<TypeId>,
    first: u128,
    name: &Name,
    numbers: &[Inferred],
) -> Result<Resolved, AllocError>
    ensures { IfOk result (λ r. (names : ItemNames) (later : List Row) → IsPrefix types.now later → HasRowIf types.now ty
        → seen_by.IsResolved r (if list_all (λ k. k == first) (the.parametric_args_for name.now (map number_of numbers.now)) then the.in_type (type_if names later ty) first else the.Wrong)) }
{
    if is_one(numbers, name, first) {
        in_type(types, ty, first)
    } else {
        Ok(Resolved::Wrong)
    }
}

/// A default's value, with what is found there. Behind a parametric without a value it isn't looked at.
fn default_value(
    f: &Facts,
    w: &mut Walk,
    callee: CalledItem,
    ty: Option<TypeId>,
    default: &Option<Expr>,
    seen: &mut ParametricArgs,
) -> Result<Resolved, AllocError>
    ensures { IfOk result (λ r. seen_by.ResolvedFrom f.now callee (shown w.old) (shown w.new) seen.old seen.new ty (λ known owner before t. the.default_value known owner before t default.now) r) }
{
    match default {
        None => Ok(Resolved::Wrong),
        Some(e) => default_if_known(f, w, callee, ty, e.span, seen),
    }
}

fn default_if_known(
    f: &Facts,
    w: &mut Walk,
    callee: CalledItem,
    ty: Option<TypeId>,
    at: Span,
    seen: &mut ParametricArgs,
) -> Result<Resolved, AllocError>
    ensures { IfOk result (λ r. seen_by.ResolvedFrom f.now callee (shown w.old) (shown w.new) seen.old seen.new ty (seen_by.default_known at) r) }
{
    let are_known = seen.are_known;
    if are_known {
        default_there(f, w, callee, ty, at, seen)
    } else {
        Ok(Resolved::Unknown)
    }
}

fn default_there(
    f: &Facts,
    w: &mut Walk,
    callee: CalledItem,
    ty: Option<TypeId>,
    at: Span,
    seen: &mut ParametricArgs,
) -> Result<Resolved, AllocError>
    ensures { IfOk result (λ r. seen_by.ResolvedFrom f.now callee (shown w.old) (shown w.new) seen.old seen.new ty (seen_by.default_at at) r) }
{
    let is_hidden = callee.is_hidden;
    if is_hidden {
        return Ok(Resolved::Unknown);
    }
    let there = default_seen(f, w, callee.item, seen.prefix, callee.is_cyclic)?;
    match there {
        None => Ok(Resolved::Unknown),
        Some(default) => note_default(f, &w.types, ty, at, default, seen),
    }
}

/// The value of a default that is there, with what it breaks.
fn note_default(
    f: &Facts,
    types: &TypeTable,
    ty: Option<TypeId>,
    at: Span,
    default: &DefaultThere,
    seen: &mut ParametricArgs,
) -> Result<Resolved, AllocError>
    ensures { IfOk result (λ r. seen_by.NotesDefault (item_names f.now) types.now ty at default.now seen.old seen.new r) }
{
    let there = &default.typing;
    let own = wanted_faults(types, at, ty, there.ty);
    seen.note_there(there.faults.and(own), there.reached.as_slice())?;
    of_type(f, types, ty, there.ty, &default.value)
}

/// A parametric that isn't given: inferred, or its default's value.
fn not_given(
    f: &Facts,
    w: &mut Walk,
    callee: CalledItem,
    ty: Option<TypeId>,
    parametric: &Parametric,
    found: &Inference,
    seen: &mut ParametricArgs,
) -> Result<Resolved, AllocError>
    ensures { IfOk result (λ r. seen_by.ResolvedFrom f.now callee (shown w.old) (shown w.new) seen.old seen.new ty (seen_by.not_given_by parametric.now (map number_of found.now.numbers.items) (map name_lent found.now.maybe.items)) r) }
{
    let name = &parametric.name.name;
    let might = may_have(found.maybe.as_slice(), name);
    if might {
        return Ok(Resolved::Unknown);
    }
    let first = first_inferred(found.numbers.as_slice(), name);
    match first {
        Some(first) => one_inferred(&w.types, ty, first, name, found.numbers.as_slice()),
        None => default_value(f, w, callee, ty, &parametric.default, seen),
    }
}

/// What is given for a parametric.
fn given_value(
    f: &Facts,
    types: &TypeTable,
    ty: Option<TypeId>,
    given: &ParametricArgument,
    seen: &mut ParametricArgs,
) -> Result<Resolved, AllocError>
    ensures { IfOk result (λ r. seen_by.GivenFrom (item_names f.now) types.now ty given.now seen.old seen.new r) }
{
    let typing = given.constant.typing;
    let own = wanted_faults(types, given.span, ty, typing.ty);
    seen.faults = seen.faults.and(own);
    of_type(f, types, ty, typing.ty, &given.constant.value)
}

/// What is given, or what it is where it isn't.
fn argument_value(
    f: &Facts,
    w: &mut Walk,
    callee: CalledItem,
    ty: Option<TypeId>,
    parametric: &Parametric,
    given: Option<&ParametricArgument>,
    found: &Inference,
    seen: &mut ParametricArgs,
) -> Result<Resolved, AllocError>
    ensures { IfOk result (λ r. seen_by.ArgumentFrom f.now callee (shown w.old) (shown w.new) seen.old seen.new ty parametric.now (option_copied given.entry) (map number_of found.now.numbers.items) (map name_lent found.now.maybe.items) r) }
{
    match given {
        Some(given) => given_value(f, &w.types, ty, given, seen),
        None => not_given(f, w, callee, ty, parametric, found, seen),
    }
}

/// The type that is declared for the next parametric, with what is found there where all before have values.
fn parametric_type(
    f: &Facts,
    w: &mut Walk,
    callee: CalledItem,
    seen: &mut ParametricArgs,
) -> Result<Option<TypeId>, AllocError>
    ensures { IfOk result (λ ty. Finds f.now callee (shown w.old) (shown w.new) (seen_by.DeclaredType (shown w.old).prefixes (shown w.new).rows callee seen.old seen.new ty)) }
{
    let is_hidden = callee.is_hidden;
    if is_hidden {
        return Ok(None);
    }
    let seen_there = parameter_seen(f, w, callee.item, seen.prefix, callee.is_cyclic)?;
    match seen_there {
        None => Ok(None),
        Some(there) => {
            seen.note_type(there)?;
            Ok(unless_unit(&w.types, there.ty))
        }
    }
}

/// The value of the next parametric, with what is found at its type.
fn next_value(
    f: &Facts,
    w: &mut Walk,
    callee: CalledItem,
    parametric: &Parametric,
    given: Option<&ParametricArgument>,
    found: &Inference,
    seen: &mut ParametricArgs,
) -> Result<Resolved, AllocError>
    ensures { IfOk result (λ r. seen_by.NextFrom f.now callee (shown w.old) (shown w.new) seen.old seen.new parametric.now (option_copied given.entry) (map number_of found.now.numbers.items) (map name_lent found.now.maybe.items) r) }
{
    let ty = parametric_type(f, w, callee, seen)?;
    let value = argument_value(f, w, callee, ty, parametric, given, found, seen)?;
    Ok(value)
}

/// What is given for the parametric of this number.
fn given_at(given: &[ParametricArgument], at: usize) -> Option<&ParametricArgument>
    ensures { option_copied result ≡ slice_get given.now at }
{
    match given.get(at) {
        Some(given) => Some(given),
        None => None,
    }
}

/// How much is missing that a walk asked for.
fn missing_count(w: &Walk) -> usize
    ensures { result ≡ length (shown w.now).missing }
{
    w.missing.len()
}

/// What a call or a spawn says of the parametrics of an item.
pub fn parametric_args(
    f: &Facts,
    w: &mut Walk,
    callee: CalledItem,
    parametrics: &[Parametric],
    given: &[ParametricArgument],
    found: &Inference,
) -> Result<ParametricArgs, AllocError>
    ensures { IfOk result (λ args. ArgsFrom f.now callee (shown w.old) (shown w.new) parametrics.now given.now (map number_of found.now.numbers.items) (map name_lent found.now.maybe.items) args) }
{
    let mut seen = ParametricArgs::new(f, &w.prefixes);
    let missing = missing_count(w);
    'parametrics: for i in 0..parametrics.len() {
        let argument = given_at(given, i);
        let parametric = &parametrics[i];
        let value = next_value(f, w, callee, parametric, argument, found, &mut seen)?;
        let now = missing_count(w);
        if now != missing {
            seen.are_known = false;
            seen.is_whole = false;
            return Ok(seen);
        }
        seen.put(f, w, value)?;
    }
    Ok(seen)
}
