//! What operands infer for parametrics, by the types that are written for arguments.

ghost use Rattle.std.specs.Prelude.{◌≡◌, ◌++◌, ◌==◌, ℕ, [], List, IfOk, OnOk, map};
ghost use Rattle.std.specs.List.{list_all};
ghost use Rattle.std.specs.Option.{option_copied};
ghost use Rattle.base.specs.Lists.Prefix.{IsPrefix};
ghost use Rattle.dslx_meaning.specs.Inference.{infer_array as from_array, infer_each as from_each, infer_tuple as from_tuple, infer_width as from_width, inferred_in, named_number};
ghost use Rattle.dslx_meaning.specs.Lists.{is_in};
ghost use Rattle.dslx_meaning.specs.Rules.CallRules as the;
ghost use Rattle.dslx_meaning.specs.declared.ty.DslxType.{DslxType, out-DslxType};
ghost use Rattle.dslx_check_rules.specs.Interned.{ItemNames, type_at, type_if, types_in};
ghost use Rattle.dslx_check_rules.specs.declared.table.row.TypeRow.{TypeRow as Row};
ghost use Rattle.dslx_check_uses.specs.Inferring.{first_number, name_lent, number_of, the_name};
ghost use Rattle.dslx_check_uses.specs.Inner.Inferring.{agrees_with, inferred_if, level_of, maybe_if};

use crate::items::name_of;
use base::texts::Name;
use dslx_check_rules::{TypeId, TypeRow, TypeTable};
use dslx_tree::{Expr, Field, TypeExpr, TypeNode};
use std::alloc::{AllocError, Global};

/// A name, and the number that an operand infers for it.
#[derive(Clone, Copy)]
pub struct Inferred<'a> {
    pub name: &'a Name,
    pub number: u128,
}

/// What operands infer, and the names for which one without a type might infer a number.
#[derive(Drop)]
pub struct Inference<'a> {
    pub numbers: Vec<Inferred<'a>>,
    pub maybe: Vec<&'a Name>,
}

impl<'a> Inference<'a> {
    /// That of no operand.
    pub fn new(alloc: Global) -> Inference<'a>
        ensures numbers { result.numbers.items ≡ [] }
        ensures maybe { result.maybe.items ≡ [] }
    {
        Inference {
            numbers: Vec::new(alloc),
            maybe: Vec::new(alloc),
        }
    }
}

/// What operands of these types infer, beside the arguments in order.
pub fn infer_all<'a>(
    alloc: Global,
    types: &TypeTable,
    arguments: &'a [Field],
    operands: &[Option<TypeId>],
) -> Result<Inference<'a>, AllocError>
    ensures numbers { IfOk result (λ found. (names : ItemNames) (later : List Row) → IsPrefix types.now later
        → map number_of found.numbers.items ≡ the.inferred_by arguments.now (map (type_if names later) operands.now)) }
    ensures maybe { IfOk result (λ found. (names : ItemNames) (later : List Row) → map name_lent found.maybe.items ≡ the.maybe_inferred arguments.now (map (type_if names later) operands.now)) }
{
    let mut found = Inference::new(alloc);
    'operands: for i in 0..arguments.len().min(operands.len()) {
        let written = &arguments[i].ty;
        infer_one(types, written, operands[i], &mut found)?;
    }
    Ok(found)
}

/// What one operand infers.
fn infer_one<'a>(
    types: &TypeTable,
    written: &'a TypeExpr,
    operand: Option<TypeId>,
    found: &mut Inference<'a>,
) -> Result<(), AllocError>
    ensures numbers { OnOk result ((names : ItemNames) (later : List Row) → IsPrefix types.now later
        → map number_of found.new.numbers.items ≡ map number_of found.old.numbers.items ++ inferred_if written.now (type_if names later operand)) }
    ensures maybe { OnOk result ((names : ItemNames) (later : List Row)
        → map name_lent found.new.maybe.items ≡ map name_lent found.old.maybe.items ++ maybe_if written.now (type_if names later operand)) }
{
    match operand {
        Some(ty) => infer(types, written, ty, &mut found.numbers),
        None => infer_maybe(written, &mut found.maybe),
    }
}

/// Adds what a written type infers beside a type.
#[cycle(infer)]
#[tactic(auto, using(crate::proofs::OnInference::infers_by_level))]
fn infer<'a>(
    types: &TypeTable,
    written: &'a TypeExpr,
    ty: TypeId,
    found: &mut Vec<Inferred<'a>>,
) -> Result<(), AllocError>
    ensures { OnOk result ((names : ItemNames) (later : List Row) → IsPrefix types.now later → map number_of found.new.items ≡ map number_of found.old.items ++ inferred_in written.now (type_at names later ty)) }
{
    match &written.node {
        TypeNode::Wide(signed, width) => infer_width(types, *signed, width.get(), ty, found),
        TypeNode::Tuple(parts) => infer_tuple(types, parts.as_slice(), ty, found),
        TypeNode::Array(part, size) => infer_array(types, part.get(), size.get(), ty, found),
        TypeNode::Bits(_, _) => Ok(()),
        TypeNode::Bool => Ok(()),
        TypeNode::Name(_) => Ok(()),
    }
}

/// What a type is. Each type that a walk comes to has a row; another one is refused as for want of memory.
fn row_of(types: &TypeTable, ty: TypeId) -> Result<&TypeRow, AllocError>
    ensures { IfOk result (λ r. (names : ItemNames) (later : List Row) → IsPrefix types.now later → out-DslxType (type_at names later ty) ≡ level_of names (types_in names later) r.now) }
{
    match types.row(ty) {
        Some(row) => Ok(row),
        None => Err(AllocError),
    }
}

fn infer_width<'a>(
    types: &TypeTable,
    signed: bool,
    width: &'a Expr,
    ty: TypeId,
    found: &mut Vec<Inferred<'a>>,
) -> Result<(), AllocError>
    ensures { OnOk result ((names : ItemNames) (later : List Row) → IsPrefix types.now later
        → map number_of found.new.items ≡ map number_of found.old.items ++ from_width signed (the_name width.now) (out-DslxType (type_at names later ty))) }
{
    let row = row_of(types, ty)?;
    width_by_row(row, signed, width, found)
}

fn width_by_row<'a>(
    row: &TypeRow,
    signed: bool,
    width: &'a Expr,
    found: &mut Vec<Inferred<'a>>,
) -> Result<(), AllocError>
    ensures { OnOk result ((names : ItemNames) (f : ℕ → DslxType) → map number_of found.new.items ≡ map number_of found.old.items ++ from_width signed (the_name width.now) (level_of names f row.now)) }
{
    match row {
        TypeRow::Bits(kind) => if signed == kind.signed {
            note(name_of(width), kind.width, found)
        } else {
            Ok(())
        },
        TypeRow::Tuple(_) => Ok(()),
        TypeRow::Array(_, _) => Ok(()),
        TypeRow::Struct(_, _) => Ok(()),
        TypeRow::Enum(_, _) => Ok(()),
        TypeRow::Token => Ok(()),
    }
}

#[cycle(infer)]
fn infer_tuple<'a>(
    types: &TypeTable,
    parts: &'a [TypeExpr],
    ty: TypeId,
    found: &mut Vec<Inferred<'a>>,
) -> Result<(), AllocError>
    ensures { OnOk result ((names : ItemNames) (later : List Row) → IsPrefix types.now later
        → map number_of found.new.items ≡ map number_of found.old.items ++ from_tuple (map inferred_in parts.now) (out-DslxType (type_at names later ty))) }
{
    let row = row_of(types, ty)?;
    match row {
        TypeRow::Tuple(own) => if parts.len() == own.len() {
            infer_each(types, parts, own.as_slice(), found)
        } else {
            Ok(())
        },
        TypeRow::Bits(_) => Ok(()),
        TypeRow::Array(_, _) => Ok(()),
        TypeRow::Struct(_, _) => Ok(()),
        TypeRow::Enum(_, _) => Ok(()),
        TypeRow::Token => Ok(()),
    }
}

/// Adds what each written type infers beside its own type.
#[cycle(infer)]
fn infer_each<'a>(
    types: &TypeTable,
    parts: &'a [TypeExpr],
    own: &[TypeId],
    found: &mut Vec<Inferred<'a>>,
) -> Result<(), AllocError>
    ensures { OnOk result ((names : ItemNames) (later : List Row) → IsPrefix types.now later
        → map number_of found.new.items ≡ map number_of found.old.items ++ from_each (map inferred_in parts.now) (map (type_at names later) own.now)) }
{
    'parts: for i in 0..parts.len().min(own.len()) {
        infer(types, &parts[i], own[i], found)?;
    }
    Ok(())
}

#[cycle(infer)]
fn infer_array<'a>(
    types: &TypeTable,
    part: &'a TypeExpr,
    size: &'a Expr,
    ty: TypeId,
    found: &mut Vec<Inferred<'a>>,
) -> Result<(), AllocError>
    ensures { OnOk result ((names : ItemNames) (later : List Row) → IsPrefix types.now later
        → map number_of found.new.items ≡ map number_of found.old.items ++ from_array (inferred_in part.now) (the_name size.now) (out-DslxType (type_at names later ty))) }
{
    let row = row_of(types, ty)?;
    match row {
        TypeRow::Array(element, number) => {
            infer(types, part, *element, found)?;
            note(name_of(size), *number, found)
        }
        TypeRow::Bits(_) => Ok(()),
        TypeRow::Tuple(_) => Ok(()),
        TypeRow::Struct(_, _) => Ok(()),
        TypeRow::Enum(_, _) => Ok(()),
        TypeRow::Token => Ok(()),
    }
}

/// Adds a number for a name, if there is one.
fn note<'a>(
    name: Option<&'a Name>,
    number: u128,
    found: &mut Vec<Inferred<'a>>,
) -> Result<(), AllocError>
    ensures { OnOk result (map number_of found.new.items ≡ map number_of found.old.items ++ named_number (option_copied name.entry) number) }
{
    match name {
        Some(name) => {
            found.push(Inferred { name, number })?;
            Ok(())
        }
        None => Ok(()),
    }
}

/// Adds the names for which a written type might infer numbers.
#[cycle(maybe)]
#[tactic(auto, using(crate::proofs::OnInference::lists_by_level))]
fn infer_maybe<'a>(written: &'a TypeExpr, found: &mut Vec<&'a Name>) -> Result<(), AllocError>
    ensures { OnOk result (map name_lent found.new.items ≡ map name_lent found.old.items ++ the.inferable_in written.now) }
{
    match &written.node {
        TypeNode::Wide(_, width) => note_maybe(name_of(width.get()), found),
        TypeNode::Tuple(parts) => all_maybe(parts.as_slice(), found),
        TypeNode::Array(part, size) => array_maybe(part.get(), size.get(), found),
        TypeNode::Bits(_, _) => Ok(()),
        TypeNode::Bool => Ok(()),
        TypeNode::Name(_) => Ok(()),
    }
}

#[cycle(maybe)]
fn array_maybe<'a>(
    part: &'a TypeExpr,
    size: &'a Expr,
    found: &mut Vec<&'a Name>,
) -> Result<(), AllocError>
    ensures { OnOk result (map name_lent found.new.items ≡ map name_lent found.old.items ++ (the.inferable_in part.now ++ the.name_listed (the_name size.now))) }
{
    infer_maybe(part, found)?;
    note_maybe(name_of(size), found)
}

#[cycle(maybe)]
fn all_maybe<'a>(parts: &'a [TypeExpr], found: &mut Vec<&'a Name>) -> Result<(), AllocError>
    ensures { OnOk result (map name_lent found.new.items ≡ map name_lent found.old.items ++ the.all_listed (map the.inferable_in parts.now)) }
{
    'parts: for part in parts {
        infer_maybe(part, found)?;
    }
    Ok(())
}

fn note_maybe<'a>(name: Option<&'a Name>, found: &mut Vec<&'a Name>) -> Result<(), AllocError>
    ensures { OnOk result (map name_lent found.new.items ≡ map name_lent found.old.items ++ the.name_listed (option_copied name.entry)) }
{
    match name {
        Some(name) => {
            found.push(name)?;
            Ok(())
        }
        None => Ok(()),
    }
}

/// Whether an operand without a type might infer a number for this name.
pub fn may_have(maybe: &[&Name], name: &Name) -> bool
    ensures { result ≡ is_in name.now (map name_lent maybe.now) }
{
    'names: for other in maybe {
        if *name == **other {
            return true;
        }
    }
    false
}

/// The first number that is inferred for a name.
pub fn first_inferred(numbers: &[Inferred], name: &Name) -> Option<u128>
    ensures { result ≡ first_number (the.parametric_args_for name.now (map number_of numbers.now)) }
{
    'numbers: for other in numbers {
        if *name == *other.name {
            return Some(other.number);
        }
    }
    None
}

/// Whether all that is inferred for a name is this number.
#[tactic(auto, using(crate::proofs::OnInference::one_next))]
pub fn is_one(numbers: &[Inferred], name: &Name, number: u128) -> bool
    ensures { result ≡ list_all (λ k. k == number) (the.parametric_args_for name.now (map number_of numbers.now)) }
{
    'numbers: for other in numbers {
        if !agrees(other, name, number) {
            return false;
        }
    }
    true
}

/// It isn't of this name, or it is this number.
fn agrees(other: &Inferred, name: &Name, number: u128) -> bool
    ensures { result ≡ agrees_with name.now number (number_of other.now) }
{
    *name != *other.name || other.number == number
}
