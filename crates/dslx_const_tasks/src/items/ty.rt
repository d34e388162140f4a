//! Written types, sizes, bounds, and the members of enums.

ghost use Rattle.dslx_meaning.specs.Items.{name_of_field, enum_member as the_member};
ghost use Rattle.dslx_meaning.specs.Lists.{and_then};
ghost use Rattle.dslx_meaning.specs.Types.{bits_in as kind_of};
ghost use Rattle.dslx_meaning.specs.declared.ty.DslxType as forms;
ghost use Rattle.dslx_meaning.specs.Names.ConstMachine.States.{type_in, without_finding};
ghost use Rattle.std.specs.Prelude.{◌≡◌, ◌∷◌, ◌++◌, [], Some, None, OnOk, IfOk, map};
ghost use Rattle.dslx_meaning.specs.Meaning.{some_count, count_in};
ghost use Rattle.dslx_meaning.specs.Names.ConstMachine.Layers.{type_of, untyped_of as number_of_expr, count_of};
ghost use Rattle.dslx_meaning.specs.Names.ConstMachine.Items.{field_types_on};
ghost use Rattle.dslx_meaning.specs.Names.ConstMachine.Steps.{stepped, types_on, type_begins, member_begins, of_base};
ghost use Rattle.dslx_meaning.specs.Names.ConstMachine.Tasks.{MakesBits, FindsSize, MakesArrayType, GathersTypes, GathersFieldTypes, MakesEnumType, FindsMember, MakesMember, CountsSize, IsSize, CountsBound, IsBound};
ghost use Rattle.dslx_const_tasks.specs.Plain.{shown, plain_type_task};

use crate::items::uses::use_type;
use crate::items::words::number_of;
use crate::{Machine, TypeTask};
use base::texts::Name;
use dslx_meaning::{BitKind, DslxType, DslxValue, UntypedLiteral};
use dslx_tree::{Expr, Field, Node, Struct, TypeExpr, TypeNode};
use dslx_values::operators::index_number;
use dslx_values::{bits_in, copy_name, enum_member, same_type, type_of_value, unsigned_of};
use std::alloc::{AllocError, Global};
use xb_value::{Boxed, Seq};

/// Does a task of a type, a size or a bound.
pub fn step_type<'a>(
    machine: &mut Machine<'a>,
    alloc: Global,
    task: TypeTask<'a>,
) -> Result<(), AllocError>
    ensures { OnOk result (shown machine.new ≡ stepped (plain_type_task task.entry) (shown machine.old)) }
{
    match task {
        TypeTask::Find(ty) => begin_type(machine, alloc, ty),
        TypeTask::MakeBits(signed) => make_bits(machine, signed),
        TypeTask::FindSize(expr) => find_size(machine, alloc, expr),
        TypeTask::MakeArray(element) => make_array(machine, alloc, element),
        TypeTask::Gather(types, rest) => gather_next_type(machine, alloc, types, rest),
        TypeTask::GatherFields(types, rest, structure) => {
            gather_next_field_type(machine, alloc, types, rest, structure)
        }
        TypeTask::MakeEnum(name) => make_enum(machine, alloc, name),
        TypeTask::FindMember(expr, name) => find_member(machine, alloc, expr, name),
        TypeTask::MakeMember(kind, name) => make_member(machine, alloc, kind, name),
        TypeTask::CountSize(expr) => count_size(machine, alloc, expr),
        TypeTask::TakeSize => take_size(machine),
        TypeTask::CountBound(expr) => count_bound(machine, alloc, expr),
        TypeTask::TakeBound => take_bound(machine),
    }
}

fn begin_type<'a>(
    machine: &mut Machine<'a>,
    alloc: Global,
    ty: &'a TypeExpr,
) -> Result<(), AllocError>
    ensures { OnOk result (shown machine.new ≡ type_begins (type_of ty.now) (shown machine.old)) }
{
    match &ty.node {
        TypeNode::Bits(signed, width) => {
            machine.give_type(Some(DslxType::Bits(*signed, *width as u128)))
        }
        TypeNode::Wide(signed, expr) => machine.size_then_type(
            alloc,
            expr.get(),
            TypeTask::MakeBits(*signed),
        ),
        TypeNode::Bool => machine.give_type(Some(DslxType::Bits(false, 1))),
        TypeNode::Name(name) => use_type(machine, alloc, name),
        TypeNode::Tuple(parts) => {
            gather_types(machine, alloc, Vec::new(alloc), parts.as_slice())
        }
        TypeNode::Array(element, size) => machine.type_then_type(
            alloc,
            element.get(),
            TypeTask::FindSize(size.get()),
        ),
    }
}

fn make_bits<'a>(machine: &mut Machine<'a>, signed: bool) -> Result<(), AllocError>
    ensures { OnOk result (shown machine.new ≡ stepped (MakesBits signed) (shown machine.old)) }
{
    match machine.take_count() {
        Some(width) => machine.give_type(Some(DslxType::Bits(signed, width))),
        None => machine.give_type(None),
    }
}

fn find_size<'a>(machine: &mut Machine<'a>, alloc: Global, expr: &'a Expr) -> Result<(), AllocError>
    ensures { OnOk result (shown machine.new ≡ stepped (FindsSize expr.now) (shown machine.old)) }
{
    match machine.take_type() {
        Some(element) => machine.size_then_type(alloc, expr, TypeTask::MakeArray(element)),
        None => machine.give_type(None),
    }
}

fn make_array<'a>(
    machine: &mut Machine<'a>,
    alloc: Global,
    element: DslxType,
) -> Result<(), AllocError>
    ensures { OnOk result (shown machine.new ≡ stepped (MakesArrayType element) (shown machine.old)) }
{
    match machine.take_count() {
        Some(count) => {
            let boxed = Boxed::new(alloc, element)?;
            machine.give_type(Some(DslxType::Array(boxed, count)))
        }
        None => machine.give_type(None),
    }
}

/// Goes on with the types that are left, behind these.
fn gather_types<'a>(
    machine: &mut Machine<'a>,
    alloc: Global,
    types: Vec<DslxType>,
    rest: &'a [TypeExpr],
) -> Result<(), AllocError>
    ensures { OnOk result (shown machine.new ≡ types_on types.items rest.now (shown machine.old)) }
{
    match rest {
        [] => machine.give_type(Some(DslxType::Tuple(Seq::from_vec(types)))),
        [first, others @ ..] => machine.type_then_type(
            alloc,
            first,
            TypeTask::Gather(types, others),
        ),
    }
}

fn gather_next_type<'a>(
    machine: &mut Machine<'a>,
    alloc: Global,
    types: Vec<DslxType>,
    rest: &'a [TypeExpr],
) -> Result<(), AllocError>
    ensures { OnOk result (shown machine.new ≡ stepped (GathersTypes types.items rest.now) (shown machine.old)) }
{
    match machine.take_type() {
        Some(ty) => gather_types(machine, alloc, type_behind(types, ty)?, rest),
        None => machine.give_type(None),
    }
}

/// Goes on with the types of the fields that are left, behind these.
pub(crate) fn gather_field_types<'a>(
    machine: &mut Machine<'a>,
    alloc: Global,
    types: Vec<DslxType>,
    rest: &'a [Field],
    structure: &'a Struct,
) -> Result<(), AllocError>
    ensures { OnOk result (shown machine.new ≡ field_types_on types.items rest.now structure.now (shown machine.old)) }
{
    match rest {
        [] => {
            let ty = struct_type(alloc, structure, types)?;
            machine.give_type(Some(ty))
        }
        [first, others @ ..] => machine.type_then_type(
            alloc,
            &first.ty,
            TypeTask::GatherFields(types, others, structure),
        ),
    }
}

fn gather_next_field_type<'a>(
    machine: &mut Machine<'a>,
    alloc: Global,
    types: Vec<DslxType>,
    rest: &'a [Field],
    structure: &'a Struct,
) -> Result<(), AllocError>
    ensures { OnOk result (shown machine.new ≡ stepped (GathersFieldTypes types.items rest.now structure.now) (shown machine.old)) }
{
    match machine.take_type() {
        Some(ty) => gather_field_types(machine, alloc, type_behind(types, ty)?, rest, structure),
        None => machine.give_type(None),
    }
}

fn make_enum<'a>(machine: &mut Machine<'a>, alloc: Global, name: &'a Name) -> Result<(), AllocError>
    ensures { OnOk result (shown machine.new ≡ stepped (MakesEnumType name.now) (shown machine.old)) }
{
    match take_kind(machine) {
        Some(kind) => {
            let name = copy_name(alloc, name)?;
            machine.give_type(Some(DslxType::Enum(name, kind.signed, kind.width)))
        }
        None => machine.give_type(None),
    }
}

/// Takes the type that was found, if it is one of bits.
fn take_kind<'a>(machine: &mut Machine<'a>) -> Option<BitKind>
    ensures value { result ≡ and_then (type_in (shown machine.old).found) kind_of }
    ensures rest { shown machine.new ≡ without_finding (shown machine.old) }
{
    match machine.take_type() {
        Some(ty) => bits_in(&ty),
        None => None,
    }
}

fn find_member<'a>(
    machine: &mut Machine<'a>,
    alloc: Global,
    expr: &'a Expr,
    name: &'a Name,
) -> Result<(), AllocError>
    ensures { OnOk result (shown machine.new ≡ stepped (FindsMember expr.now name.now) (shown machine.old)) }
{
    match take_kind(machine) {
        Some(kind) => begin_member(machine, alloc, kind, expr, name),
        None => Ok(()),
    }
}

fn begin_member<'a>(
    machine: &mut Machine<'a>,
    alloc: Global,
    kind: BitKind,
    expr: &'a Expr,
    name: &'a Name,
) -> Result<(), AllocError>
    ensures { OnOk result (shown machine.new ≡ member_begins kind (number_of_expr expr.now) expr.now name.now (shown machine.old)) }
{
    match untyped_of(expr) {
        Some(number) => {
            let value = number_of(&DslxType::Bits(kind.signed, kind.width), number)?;
            let member = member_of(alloc, name, value)?;
            machine.give(member)
        }
        None => machine.eval_then_type(alloc, expr, TypeTask::MakeMember(kind, name)),
    }
}

fn make_member<'a>(
    machine: &mut Machine<'a>,
    alloc: Global,
    kind: BitKind,
    name: &'a Name,
) -> Result<(), AllocError>
    ensures { OnOk result (shown machine.new ≡ stepped (MakesMember kind name.now) (shown machine.old)) }
{
    match machine.take_value() {
        Some(value) => {
            let based = in_base(alloc, kind, value)?;
            let member = member_of(alloc, name, based)?;
            machine.give(member)
        }
        None => Ok(()),
    }
}

fn count_size<'a>(
    machine: &mut Machine<'a>,
    alloc: Global,
    expr: &'a Expr,
) -> Result<(), AllocError>
    ensures { OnOk result (shown machine.new ≡ stepped (CountsSize expr.now) (shown machine.old)) }
{
    match untyped_of(expr) {
        Some(number) => machine.give_count(size(count(number))),
        None => machine.eval_then_type(alloc, expr, TypeTask::TakeSize),
    }
}

fn take_size<'a>(machine: &mut Machine<'a>) -> Result<(), AllocError>
    ensures { OnOk result (shown machine.new ≡ stepped IsSize (shown machine.old)) }
{
    match machine.take_value() {
        Some(value) => machine.give_count(size(amount(&value))),
        None => machine.give_count(None),
    }
}

fn count_bound<'a>(
    machine: &mut Machine<'a>,
    alloc: Global,
    expr: &'a Expr,
) -> Result<(), AllocError>
    ensures { OnOk result (shown machine.new ≡ stepped (CountsBound expr.now) (shown machine.old)) }
{
    match untyped_of(expr) {
        Some(number) => machine.give_count(count(number)),
        None => machine.eval_then_type(alloc, expr, TypeTask::TakeBound),
    }
}

fn take_bound<'a>(machine: &mut Machine<'a>) -> Result<(), AllocError>
    ensures { OnOk result (shown machine.new ≡ stepped IsBound (shown machine.old)) }
{
    match machine.take_value() {
        Some(value) => machine.give_count(index_number(&value)),
        None => machine.give_count(None),
    }
}

/// The number without a type that an expression is.
pub fn untyped_of(expr: &Expr) -> Option<UntypedLiteral>
    ensures { result ≡ number_of_expr expr.now }
{
    match &expr.node {
        Node::Number(number) => match &number.ty {
            Some(_) => None,
            None => Some(UntypedLiteral {
                is_negative: number.is_negative,
                value: number.value,
            }),
        },
        _ => None,
    }
}

fn count(number: UntypedLiteral) -> Option<u128>
    ensures { result ≡ count_of number }
{
    if number.is_negative {
        None
    } else {
        Some(number.value)
    }
}

/// A size is 1 or more.
fn size(count: Option<u128>) -> Option<u128>
    ensures { result ≡ and_then count some_count }
{
    match count {
        Some(count) => some_size(count),
        None => None,
    }
}

#[tactic(auto, using(crate::proofs::OnItems::Sizes::some_size, crate::proofs::OnItems::Sizes::no_size))]
fn some_size(count: u128) -> Option<u128>
    ensures { result ≡ some_count count }
{
    if count == 0 { None } else { Some(count) }
}

/// The number that an unsigned value is.
fn amount(value: &DslxValue) -> Option<u128>
    ensures { result ≡ count_in None (Some value.now) }
{
    match unsigned_of(value) {
        Some(word) => Some(word.value()),
        None => None,
    }
}

/// The types, and one more behind them.
fn type_behind(mut types: Vec<DslxType>, ty: DslxType) -> Result<Vec<DslxType>, AllocError>
    ensures { IfOk result (λ more. more.items ≡ types.items ++ ty ∷ []) }
{
    types.push(ty)?;
    Ok(types)
}

/// The type of a struct whose fields have these types.
fn struct_type(
    alloc: Global,
    structure: &Struct,
    types: Vec<DslxType>,
) -> Result<DslxType, AllocError>
    ensures { IfOk result (λ ty. ty ≡ forms.Struct structure.now.name.name (map name_of_field structure.now.fields) types.items) }
{
    let name = copy_name(alloc, &structure.name.name)?;
    let names = field_names(alloc, structure.fields.as_slice())?;
    Ok(DslxType::Struct(name, names, Seq::from_vec(types)))
}

/// The names of fields.
fn field_names(alloc: Global, fields: &[Field]) -> Result<Seq<Name>, AllocError>
    ensures { IfOk result (λ names. names ≡ map name_of_field fields.now) }
{
    let mut names = Vec::new(alloc);
    'fields: for field in fields {
        names.push(copy_name(alloc, &field.name.name)?)?;
    }
    Ok(Seq::from_vec(names))
}

/// A value of the base of an enum.
fn in_base(alloc: Global, kind: BitKind, value: DslxValue) -> Result<Option<DslxValue>, AllocError>
    ensures { IfOk result (λ v. v ≡ of_base kind value) }
{
    let ty = type_of_value(alloc, &value)?;
    if same_type(&ty, &DslxType::Bits(kind.signed, kind.width)) {
        Ok(Some(value))
    } else {
        Ok(None)
    }
}

/// The member of an enum that has these bits.
fn member_of(
    alloc: Global,
    name: &Name,
    value: Option<DslxValue>,
) -> Result<Option<DslxValue>, AllocError>
    ensures { IfOk result (λ v. v ≡ and_then value (the_member name.now)) }
{
    match value {
        Some(value) => Ok(enum_member(copy_name(alloc, name)?, &value)),
        None => Ok(None),
    }
}
