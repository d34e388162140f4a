//! Members of enums, and their types.

ghost use Rattle.std.specs.Prelude.{◌≡◌, List, None, IfOk, is_some, map};
ghost use Rattle.base.specs.Lists.Prefix.{IsPrefix};
ghost use Rattle.dslx_meaning.specs.Lists.{and_then};
ghost use Rattle.dslx_meaning.specs.Types.{bits_in as the_kind};
ghost use Rattle.dslx_meaning.specs.Rules.AggregateRules.{range_faults};
ghost use Rattle.dslx_meaning.specs.Rules.ItemRules as the;
ghost use Rattle.dslx_check_rules.specs.Interned.{HasRowIf, ItemNames, type_if};
ghost use Rattle.dslx_check_rules.specs.Seen.{seen};
ghost use Rattle.dslx_check_rules.specs.declared.table.row.TypeRow.{TypeRow as Row};
ghost use Rattle.dslx_check_facts.specs.Walks.{shown};
ghost use Rattle.dslx_check_declarations.specs.Items.{FindsEnum, enum_faults, member_if, number_in_base};

use crate::doubles::has_equal_values;
use crate::items::ItemSeen;
use crate::structs::may_name_type;
use base::texts::Name;
use dslx_check_facts::{Facts, Walk, number_in};
use dslx_check_rules::nodes::either;
use dslx_check_rules::{Faults, TypeId, TypeTable, bits_in, is_bits, rule, unless_bits};
use dslx_meaning::{BitKind, DslxValue, UntypedLiteral};
use dslx_values::{copy_name, enum_member};
use std::alloc::{AllocError, Global};
use xb_span::Span;

/// A member: its faults, and its value before it is the enum's.
#[derive(Drop)]
pub struct MemberSeen {
    pub faults: Faults,
    pub value: Option<DslxValue>,
}

/// A number without a type is of the base, in whose range it lies.
pub fn number_member(
    types: &TypeTable,
    span: Span,
    base: Option<TypeId>,
    number: UntypedLiteral,
) -> Result<MemberSeen, AllocError>
    ensures { IfOk result (λ m. (names : ItemNames) (later : List Row) → IsPrefix types.now later → HasRowIf types.now base
        → (m.faults ≡ seen (range_faults span (type_if names later base) number)) × (m.value ≡ number_in_base (type_if names later base) number)) }
{
    match base {
        None => Ok(MemberSeen {
            faults: Faults::none(),
            value: None,
        }),
        Some(base) => {
            let value = number_in(types, base, number)?;
            let is_there = value.is_some();
            Ok(MemberSeen {
                faults: Faults::breaks_if(!is_there, rule::NUMBER_FITS_TYPE, span),
                value,
            })
        }
    }
}

/// A base, if it is bits.
pub fn base_if_bits(types: &TypeTable, base: Option<TypeId>) -> Option<TypeId>
    ensures is { (names : ItemNames) (later : List Row) → IsPrefix types.now later → HasRowIf types.now base → type_if names later result ≡ the.base_if_bits (type_if names later base) }
    ensures there { HasRowIf types.now base → HasRowIf types.now result }
{
    match base {
        None => None,
        Some(ty) => if is_bits(types, ty) { Some(ty) } else { None },
    }
}

/// Rule 23: the base isn't bits, there is no member, or two have one value.
pub fn member_faults(
    f: &Facts,
    types: &TypeTable,
    span: Span,
    base: Option<TypeId>,
    values: &[Option<DslxValue>],
) -> Result<Faults, AllocError>
    ensures { IfOk result (λ own. (names : ItemNames) (later : List Row) → IsPrefix types.now later → HasRowIf types.now base → own ≡ seen (enum_faults span (type_if names later base) values.now)) }
{
    let has_equal = has_equal_values(f.alloc, kind_or_none(types, base), values)?;
    let is_wrong = either(values.len() == 0, has_equal);
    let own = unless_bits(types, rule::ENUM_MEMBERS, span, base);
    Ok(own.and(Faults::breaks_if(is_wrong, rule::ENUM_MEMBERS, span)))
}

/// The kind of bits that a base is; bits of no width where it is none.
fn kind_or_none(types: &TypeTable, base: Option<TypeId>) -> BitKind {
    match kind_of(types, base) {
        Some(kind) => kind,
        None => BitKind {
            signed: false,
            width: 0,
        },
    }
}

/// The kind of bits that a type is.
fn kind_of(types: &TypeTable, ty: Option<TypeId>) -> Option<BitKind>
    ensures { (names : ItemNames) (later : List Row) → IsPrefix types.now later → HasRowIf types.now ty → result ≡ and_then (type_if names later ty) the_kind }
{
    match ty {
        None => None,
        Some(ty) => bits_in(types, ty),
    }
}

/// The type of an enum of this item over a base, unless a rule is broken or something is missing. It is put into the table here alone.
pub fn type_of_enum(
    w: &mut Walk,
    item: u32,
    faults: Faults,
    base: Option<TypeId>,
) -> Result<Option<TypeId>, AllocError>
    ensures { IfOk result (λ t. FindsEnum (shown w.old) (shown w.new) item faults base t) }
{
    let is_whole = may_name_type(w, faults);
    if !is_whole {
        return Ok(None);
    }
    match kind_of(&w.types, base) {
        None => Ok(None),
        Some(kind) => {
            let ty = w.types.enumeration(item, kind)?;
            Ok(Some(ty))
        }
    }
}

/// An enum of this name that is of this type, if it is a type, with the values of its members. Without a type they have none.
pub fn enum_of_type(
    alloc: Global,
    name: &Name,
    faults: Faults,
    ty: Option<TypeId>,
    values: &[Option<DslxValue>],
) -> Result<ItemSeen, AllocError>
    ensures named { IfOk result (λ i. (i.faults ≡ faults) × (i.named_type ≡ ty)) }
    ensures nothing { IfOk result (λ i. (i.value_type ≡ None) × (i.value ≡ None)) }
    ensures members { IfOk result (λ i. i.members.items ≡ map (member_if (is_some ty) name.now) values.now) }
{
    let is_type = ty.is_some();
    let members = member_values(alloc, name, is_type, values)?;
    Ok(ItemSeen {
        faults,
        named_type: ty,
        value_type: None,
        value: None,
        members,
    })
}

/// The values of members as those of an enum of this name.
fn member_values(
    alloc: Global,
    name: &Name,
    is_type: bool,
    values: &[Option<DslxValue>],
) -> Result<Vec<Option<DslxValue>>, AllocError>
    ensures { IfOk result (λ members. members.items ≡ map (member_if is_type name.now) values.now) }
{
    let mut members = Vec::new(alloc);
    'values: for value in values {
        let member = value_of_member(alloc, name, is_type, value)?;
        members.push(member)?;
    }
    Ok(members)
}

fn value_of_member(
    alloc: Global,
    name: &Name,
    is_type: bool,
    value: &Option<DslxValue>,
) -> Result<Option<DslxValue>, AllocError>
    ensures { IfOk result (λ member. member ≡ member_if is_type name.now value.now) }
{
    match value {
        None => Ok(None),
        Some(value) => if is_type {
            let name = copy_name(alloc, name)?;
            Ok(enum_member(name, value))
        } else {
            Ok(None)
        },
    }
}
