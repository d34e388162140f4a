//! Items by their numbers.

ghost use Rattle.std.specs.Prelude.{◌≡◌, IfOk, map};
ghost use Rattle.std.specs.Option.{option_copied};
ghost use Rattle.dslx_tree.specs.declared.item.Definition.TheVariants as d;
ghost use Rattle.dslx_meaning.specs.Items.{name_of_field};
ghost use Rattle.dslx_check_facts.specs.Firsts.{IsMeant};
ghost use Rattle.dslx_check_facts.specs.Known.{item_names, text_of};
ghost use Rattle.dslx_check_facts.specs.Names.{definition_at};

use base::texts::Name;
use dslx_check_facts::Facts;
use dslx_check_items::ident_of;
use dslx_tree::{Definition, Enum, Struct};
use dslx_values::copy_name;
use std::alloc::{AllocError, Global};
use xb_value::Seq;

/// The item of a number, if there is one.
pub(crate) fn definition<'a>(f: &Facts<'a>, item: u32) -> Option<&'a Definition>
    ensures { option_copied result ≡ definition_at (text_of f.now).items item }
{
    let items = f.kept.items.text.items.as_slice();
    match items.get(item as usize) {
        Some(item) => Some(&item.definition),
        None => None,
    }
}

/// The enum of a number, if it is the first item of its name. No other one has a type.
pub fn enum_at<'a>(f: &Facts<'a>, item: u32) -> Result<&'a Enum, AllocError>
    ensures { IfOk result (λ e. IsMeant f.now ((item_names f.now).item item) item (d.Enum e.now)) }
{
    match definition(f, item) {
        Some(definition) => first_enum(f, item, &ident_of(definition).name),
        None => Err(AllocError),
    }
}

fn first_enum<'a>(f: &Facts<'a>, item: u32, name: &Name) -> Result<&'a Enum, AllocError>
    ensures { IfOk result (λ e. IsMeant f.now ((item_names f.now).item item) item (d.Enum e.now)) }
{
    match f.choice(name) {
        Some((first, choice)) => if first == item {
            Ok(choice)
        } else {
            Err(AllocError)
        },
        None => Err(AllocError),
    }
}

/// The name of an item, if it is the first one of that name.
pub fn item_name(f: &Facts, item: u32) -> Result<Name, AllocError>
    ensures { IfOk result (λ name. name ≡ (item_names f.now).item item) }
{
    match definition(f, item) {
        Some(definition) => first_name(f, item, &ident_of(definition).name),
        None => Err(AllocError),
    }
}

fn first_name(f: &Facts, item: u32, name: &Name) -> Result<Name, AllocError>
    ensures { IfOk result (λ own. own ≡ (item_names f.now).item item) }
{
    match f.item(name) {
        Some((first, _)) => if first == item {
            copy_name(f.alloc, name)
        } else {
            Err(AllocError)
        },
        None => Err(AllocError),
    }
}

/// The names of the fields of a struct, if it is the first item of its name.
pub fn item_fields(f: &Facts, item: u32) -> Result<Seq<Name>, AllocError>
    ensures { IfOk result (λ names. names ≡ (item_names f.now).fields item) }
{
    match definition(f, item) {
        Some(definition) => first_fields(f, item, &ident_of(definition).name),
        None => Err(AllocError),
    }
}

fn first_fields(f: &Facts, item: u32, name: &Name) -> Result<Seq<Name>, AllocError>
    ensures { IfOk result (λ names. names ≡ (item_names f.now).fields item) }
{
    match f.structure(name) {
        Some((first, structure)) => if first == item {
            field_names(f.alloc, structure)
        } else {
            Err(AllocError)
        },
        None => Err(AllocError),
    }
}

fn field_names(alloc: Global, structure: &Struct) -> Result<Seq<Name>, AllocError>
    ensures { IfOk result (λ names. names ≡ map name_of_field structure.now.fields) }
{
    let mut names = Vec::new(alloc);
    let fields = structure.fields.as_slice();
    'fields: for field in fields {
        let name = copy_name(alloc, &field.name.name)?;
        names.push(name)?;
    }
    Ok(Seq::from_vec(names))
}
