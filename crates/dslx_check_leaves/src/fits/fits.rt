//! Which values the patterns of a match fit.

ghost use Rattle.std.specs.Prelude.{◌≡◌, ◌∷◌, [], List, Some, true, IfOk, OnOk, if◌then◌else◌};
ghost use Rattle.std.specs.Option.{option_copied, option_map};
ghost use Rattle.base.specs.Lists.Prefix.{IsPrefix};
ghost use Rattle.dslx_meaning.specs.Operators.{number_value};
ghost use Rattle.dslx_meaning.specs.Values.{bool_value as truth_value};
ghost use Rattle.dslx_meaning.specs.Rules.TypeEnvs.{GlobalEnv};
ghost use Rattle.dslx_meaning.specs.declared.ty.DslxType.{DslxType, out-DslxType};
ghost use Rattle.dslx_check_rules.specs.declared.table.row.TypeRow.{TypeRow as Row};
ghost use Rattle.dslx_check_rules.specs.Interned.{HasRow, HasRowIf, ItemNames, type_at, type_if};
ghost use Rattle.dslx_check_facts.specs.Known.{FactsHold, item_names, value_at};
ghost use Rattle.dslx_check_facts.specs.Walks.{OnlyMisses, WalkShown, shown};
ghost use Rattle.dslx_check_leaves.specs.Fits.Fits.{ArmsFit, CatchesAll, CatchesValue, Exhausts, MatchesAll, MatchesEach, MatchesMembers, MatchesOne, MatchesWords, PartsFit, PatternFits, PatternsFit, TupleFits, enum_in, enum_name, is_value, literal_of};

use crate::fits::items::enum_at;
use crate::fits::ways::find_way;
use crate::fits::words::{low_value, word_count};
use base::texts::Name;
use dslx_check_facts::{Facts, TypeEnv, Walk, is_known, member_value, number_in};
use dslx_check_rules::control::patterns::part_type_of;
use dslx_check_rules::{TypeId, TypeRow, TypeTable};
use dslx_meaning::{DslxValue, UntypedLiteral};
use dslx_tree::{Arm, Enum, Ident, Number, Pattern, Shape};
use dslx_values::{bool_value, elements_of, same_value};
use std::alloc::AllocError;

/// Whether each value of a type of at most 8 bits is matched, and each member of an enum; of a wider type the last arm fits all.
pub(crate) fn is_exhaustive(
    f: &Facts,
    w: &mut Walk,
    s: &TypeEnv,
    ty: TypeId,
    arms: &[Arm],
    last_is_sure: bool,
) -> Result<bool, AllocError>
    ensures misses { OnOk result (OnlyMisses (shown w.old) (shown w.new)) }
    ensures is { IfOk result (Exhausts f.now s.now (shown w.old) (shown w.new) ty arms.now last_is_sure) }
{
    match enum_item(&w.types, ty) {
        Some(item) => enum_matches(f, w, s.owner, ty, item, arms),
        None => values_match(f, w, ty, arms, last_is_sure),
    }
}

/// The item of an enum's type.
fn enum_item(types: &TypeTable, ty: TypeId) -> Option<u32>
    ensures { (names : ItemNames) (later : List Row) → IsPrefix types.now later → HasRow types.now ty
        → enum_name (out-DslxType (type_at names later ty)) ≡ option_map names.item result }
{
    match types.row(ty) {
        Some(row) => enum_of_row(row),
        None => None,
    }
}

fn enum_of_row(row: &TypeRow) -> Option<u32>
    ensures { result ≡ enum_in row.now }
{
    match row {
        TypeRow::Enum(item, _) => Some(*item),
        _ => None,
    }
}

// ---- values of few bits

fn values_match(
    f: &Facts,
    w: &mut Walk,
    ty: TypeId,
    arms: &[Arm],
    last_is_sure: bool,
) -> Result<bool, AllocError>
    ensures misses { OnOk result (OnlyMisses (shown w.old) (shown w.new)) }
    ensures is { IfOk result (MatchesAll f.now (shown w.old) (shown w.new) ty arms.now last_is_sure) }
{
    let bits = w.types.measures(ty).flat as u128;
    match word_count(bits) {
        None => Ok(last_is_sure),
        Some(count) => words_match(f, w, ty, arms, count),
    }
}

/// Whether each of so many words is a value that is matched.
fn words_match(
    f: &Facts,
    w: &mut Walk,
    ty: TypeId,
    arms: &[Arm],
    count: u32,
) -> Result<bool, AllocError>
    ensures misses { OnOk result (OnlyMisses (shown w.old) (shown w.new)) }
    ensures is { IfOk result (MatchesWords f.now (shown w.old) (shown w.new) ty arms.now count) }
{
    if catches_all(f, arms) {
        Ok(true)
    } else {
        each_word_matches(f, w, ty, arms, count)
    }
}

fn each_word_matches(
    f: &Facts,
    w: &mut Walk,
    ty: TypeId,
    arms: &[Arm],
    count: u32,
) -> Result<bool, AllocError>
    ensures misses { OnOk result (OnlyMisses (shown w.old) (shown w.new)) }
    ensures is { IfOk result (MatchesWords f.now (shown w.old) (shown w.new) ty arms.now count) }
{
    'words: for word in 0..count {
        let low = low_value(f, &w.types, ty, word)?;
        let is_matched = some_arm_fits(f, w, Some(ty), arms, &low.value)?;
        if !is_matched {
            return Ok(false);
        }
    }
    Ok(true)
}

/// Whether some pattern fits whatever there is.
fn catches_all(f: &Facts, arms: &[Arm]) -> bool
    ensures { result ≡ true → CatchesAll f.now arms.now }
{
    'arms: for arm in arms {
        let is_caught = arm_catches(f, arm.patterns.as_slice());
        if is_caught {
            return true;
        }
    }
    false
}

fn arm_catches(f: &Facts, patterns: &[Pattern]) -> bool
    ensures { result ≡ true → CatchesValue f.now patterns.now }
{
    'patterns: for pattern in patterns {
        let is_caught = catches(f, pattern);
        if is_caught {
            return true;
        }
    }
    false
}

fn catches(f: &Facts, p: &Pattern) -> bool
    ensures { result ≡ true → CatchesValue f.now (p.now ∷ []) }
{
    match &p.shape {
        Shape::Wild => true,
        Shape::Name(name) => !is_constant(f, name),
        _ => false,
    }
}

fn is_constant(f: &Facts, name: &Name) -> bool
    ensures { (known : GlobalEnv) (later : WalkShown) → FactsHold f.now later known → result ≡ known.items.is_constant name.now }
{
    match f.constant(name) {
        Some(_) => true,
        None => false,
    }
}

// ---- members of enums

/// An enum, which the item in whose text the match stands reaches.
fn enum_matches(
    f: &Facts,
    w: &mut Walk,
    owner: u32,
    ty: TypeId,
    item: u32,
    arms: &[Arm],
) -> Result<bool, AllocError>
    ensures misses { OnOk result (OnlyMisses (shown w.old) (shown w.new)) }
    ensures is { IfOk result (MatchesMembers f.now (shown w.old) (shown w.new) ty owner item arms.now) }
{
    find_way(f, owner, item)?;
    let choice = enum_at(f, item)?;
    members_match(f, w, ty, item, choice, arms)
}

/// Whether each member that has a value is matched.
fn members_match(
    f: &Facts,
    w: &mut Walk,
    ty: TypeId,
    item: u32,
    choice: &Enum,
    arms: &[Arm],
) -> Result<bool, AllocError>
    ensures misses { OnOk result (OnlyMisses (shown w.old) (shown w.new)) }
    ensures is { IfOk result (MatchesEach f.now (shown w.old) (shown w.new) ty item choice.now choice.now.members arms.now) }
{
    let members = choice.members.as_slice();
    'members: for member in members {
        let is_matched = member_matches(f, w, ty, item, choice, &member.name.name, arms)?;
        if !is_matched {
            return Ok(false);
        }
    }
    Ok(true)
}

fn member_matches(
    f: &Facts,
    w: &mut Walk,
    ty: TypeId,
    item: u32,
    choice: &Enum,
    name: &Name,
    arms: &[Arm],
) -> Result<bool, AllocError>
    ensures misses { OnOk result (OnlyMisses (shown w.old) (shown w.new)) }
    ensures is { IfOk result (MatchesOne f.now (shown w.old) (shown w.new) ty item choice.now name.now arms.now) }
{
    let value = member_value(f, w, item, choice, name)?;
    match value {
        Some(value) => some_arm_fits(f, w, Some(ty), arms, value),
        None => Ok(true),
    }
}

// ---- one value

fn some_arm_fits(
    f: &Facts,
    w: &mut Walk,
    ty: Option<TypeId>,
    arms: &[Arm],
    value: &DslxValue,
) -> Result<bool, AllocError>
    ensures misses { OnOk result (OnlyMisses (shown w.old) (shown w.new)) }
    ensures is { IfOk result (ArmsFit f.now (shown w.old) (shown w.new) ty arms.now value.now) }
{
    'arms: for arm in arms {
        let is_fit = some_fits(f, w, ty, arm.patterns.as_slice(), value)?;
        if is_fit {
            return Ok(true);
        }
    }
    Ok(false)
}

fn some_fits(
    f: &Facts,
    w: &mut Walk,
    ty: Option<TypeId>,
    patterns: &[Pattern],
    value: &DslxValue,
) -> Result<bool, AllocError>
    ensures misses { OnOk result (OnlyMisses (shown w.old) (shown w.new)) }
    ensures is { IfOk result (PatternsFit f.now (shown w.old) (shown w.new) ty patterns.now value.now) }
{
    'patterns: for pattern in patterns {
        let is_fit = fits(f, w, ty, pattern, value)?;
        if is_fit {
            return Ok(true);
        }
    }
    Ok(false)
}

/// Whether a value of a type fits a pattern that breaks nothing against that type.
#[cycle(fits)]
fn fits(
    f: &Facts,
    w: &mut Walk,
    ty: Option<TypeId>,
    p: &Pattern,
    value: &DslxValue,
) -> Result<bool, AllocError>
    ensures misses { OnOk result (OnlyMisses (shown w.old) (shown w.new)) }
    ensures is { IfOk result (PatternFits f.now (shown w.old) (shown w.new) ty p.now value.now) }
{
    match &p.shape {
        Shape::Wild => Ok(true),
        Shape::Bool(holds) => Ok(bool_fits(*holds, value)),
        Shape::Number(number) => number_fits(&w.types, ty, number, value),
        Shape::Name(name) => name_fits(f, w, name, value),
        Shape::Member(choice, member) => member_fits(f, w, choice, member, value),
        Shape::Tuple(parts) => tuple_fits(f, w, ty, parts.as_slice(), value),
    }
}

fn bool_fits(holds: bool, value: &DslxValue) -> bool
    ensures { result ≡ is_value (Some (truth_value holds)) value.now }
{
    let other = bool_value(holds);
    same_value(value, &other)
}

fn number_fits(
    types: &TypeTable,
    ty: Option<TypeId>,
    number: &Number,
    value: &DslxValue,
) -> Result<bool, AllocError>
    ensures { IfOk result (λ b. (names : ItemNames) (later : List Row) (t : DslxType) → IsPrefix types.now later → HasRowIf types.now ty → type_if names later ty ≡ Some t
        → b ≡ is_value (number_value t (literal_of number.now)) value.now) }
{
    match ty {
        Some(ty) => {
            let literal = UntypedLiteral {
                is_negative: number.is_negative,
                value: number.value,
            };
            let other = number_in(types, ty, literal)?;
            Ok(is_same(value, other.as_ref()))
        }
        None => Ok(false),
    }
}

/// Whether it is the other one, if there is one.
fn is_same(value: &DslxValue, other: Option<&DslxValue>) -> bool
    ensures { result ≡ is_value (option_copied other.entry) value.now }
{
    match other {
        Some(other) => same_value(value, other),
        None => false,
    }
}

/// A name that is bound fits all.
fn name_fits(f: &Facts, w: &mut Walk, name: &Name, value: &DslxValue) -> Result<bool, AllocError>
    ensures misses { OnOk result (OnlyMisses (shown w.old) (shown w.new)) }
    ensures is { IfOk result (λ b. (known : GlobalEnv) (later : WalkShown) → FactsHold f.now later known → (shown w.new).missing ≡ []
        → b ≡ (if known.items.is_constant name.now then is_value (known.items.constant name.now) value.now else true)) }
{
    match f.constant(name) {
        None => Ok(true),
        Some((item, _)) => constant_fits(f, w, item, value),
    }
}

fn constant_fits(f: &Facts, w: &mut Walk, item: u32, value: &DslxValue) -> Result<bool, AllocError>
    ensures misses { OnOk result (OnlyMisses (shown w.old) (shown w.new)) }
    ensures is { IfOk result (λ b. (known : GlobalEnv) (later : WalkShown) → FactsHold f.now later known → (shown w.new).missing ≡ []
        → b ≡ is_value (known.items.constant ((item_names f.now).item item)) value.now) }
{
    let is_there = is_known(f, w, item)?;
    if is_there {
        let other = kept_value(f, item);
        Ok(is_same(value, other))
    } else {
        Ok(false)
    }
}

/// The value of a constant that is judged, if it has one.
fn kept_value<'f>(f: &'f Facts, item: u32) -> Option<&'f DslxValue>
    ensures { option_copied result ≡ value_at f.now item }
{
    match f.kept.constants.get(item as usize) {
        Some(Some(value)) => Some(value),
        _ => None,
    }
}

fn member_fits(
    f: &Facts,
    w: &mut Walk,
    choice: &Ident,
    member: &Ident,
    value: &DslxValue,
) -> Result<bool, AllocError>
    ensures misses { OnOk result (OnlyMisses (shown w.old) (shown w.new)) }
    ensures is { IfOk result (λ b. (known : GlobalEnv) (later : WalkShown) → FactsHold f.now later known → (shown w.new).missing ≡ []
        → b ≡ is_value (known.items.member choice.now.name member.now.name) value.now) }
{
    match f.choice(&choice.name) {
        None => Ok(false),
        Some((item, declared)) => {
            let other = member_value(f, w, item, declared, &member.name)?;
            Ok(is_same(value, other))
        }
    }
}

#[cycle(fits)]
fn tuple_fits(
    f: &Facts,
    w: &mut Walk,
    ty: Option<TypeId>,
    parts: &[Pattern],
    value: &DslxValue,
) -> Result<bool, AllocError>
    ensures misses { OnOk result (OnlyMisses (shown w.old) (shown w.new)) }
    ensures is { IfOk result (TupleFits f.now (shown w.old) (shown w.new) ty parts.now value.now) }
{
    match elements_of(value) {
        Some(values) => all_fit(f, w, ty, parts, values.as_slice()),
        None => Ok(false),
    }
}

#[cycle(fits)]
fn all_fit(
    f: &Facts,
    w: &mut Walk,
    ty: Option<TypeId>,
    parts: &[Pattern],
    values: &[DslxValue],
) -> Result<bool, AllocError>
    ensures misses { OnOk result (OnlyMisses (shown w.old) (shown w.new)) }
    ensures is { IfOk result (PartsFit f.now (shown w.old) (shown w.new) ty parts.now values.now) }
{
    if parts.len() != values.len() {
        return Ok(false);
    }
    'parts: for i in 0..parts.len() {
        let part = part_type_of(&w.types, ty, parts.len(), i);
        let is_fit = fits(f, w, part, &parts[i], &values[i])?;
        if !is_fit {
            return Ok(false);
        }
    }
    Ok(true)
}
