ghost use Rattle.std.specs.Prelude.{◌≡◌};
ghost use Rattle.std.specs.Option.{option_copied};
ghost use Rattle.dslx_meaning.specs.Items.{name_of_definition, item_named, as_function, as_constant, as_struct, as_enum, member_named};
ghost use Rattle.dslx_meaning.specs.Names.ConstMachine.Layers.{field_among};

use base::texts::Name;
use dslx_tree::{Constant, Definition, Enum, FieldValue, Function, Item, Member, Struct};

/// The name that an item defines.
fn name_of(definition: &Definition) -> &Name
    ensures { result.now ≡ name_of_definition definition.now }
{
    match definition {
        Definition::Function(function) => &function.name.name,
        Definition::Proc(process) => &process.name.name,
        Definition::Constant(constant) => &constant.name.name,
        Definition::Alias(alias) => &alias.name.name,
        Definition::Struct(structure) => &structure.name.name,
        Definition::Enum(choice) => &choice.name.name,
    }
}

/// The first item of a name. It takes time as there are items before it.
pub fn find_item<'a>(items: &'a [Item], name: &Name) -> Option<&'a Definition>
    ensures { option_copied result ≡ item_named name.now items.now }
{
    'items: for item in items {
        if *name == *name_of(&item.definition) {
            return Some(&item.definition);
        }
    }
    None
}

/// The function of a name, if the first item of that name is one.
pub fn find_function<'a>(items: &'a [Item], name: &Name) -> Option<&'a Function>
    ensures { option_copied result ≡ as_function (item_named name.now items.now) }
{
    match find_item(items, name) {
        Some(Definition::Function(function)) => Some(function),
        _ => None,
    }
}

/// The constant of a name, if the first item of that name is one.
pub fn find_constant<'a>(items: &'a [Item], name: &Name) -> Option<&'a Constant>
    ensures { option_copied result ≡ as_constant (item_named name.now items.now) }
{
    match find_item(items, name) {
        Some(Definition::Constant(constant)) => Some(constant),
        _ => None,
    }
}

/// The struct of a name, if the first item of that name is one.
pub fn find_struct<'a>(items: &'a [Item], name: &Name) -> Option<&'a Struct>
    ensures { option_copied result ≡ as_struct (item_named name.now items.now) }
{
    match find_item(items, name) {
        Some(Definition::Struct(structure)) => Some(structure),
        _ => None,
    }
}

/// The enum of a name, if the first item of that name is one.
pub fn find_enum<'a>(items: &'a [Item], name: &Name) -> Option<&'a Enum>
    ensures { option_copied result ≡ as_enum (item_named name.now items.now) }
{
    match find_item(items, name) {
        Some(Definition::Enum(choice)) => Some(choice),
        _ => None,
    }
}

/// The first member of a name.
pub fn find_member<'a>(members: &'a [Member], name: &Name) -> Option<&'a Member>
    ensures { option_copied result ≡ member_named name.now members.now }
{
    'members: for member in members {
        if *name == member.name.name {
            return Some(member);
        }
    }
    None
}

/// The first field of a name among those that are written.
pub fn find_field<'a>(fields: &'a [FieldValue], name: &Name) -> Option<&'a FieldValue>
    ensures { option_copied result ≡ field_among name.now fields.now }
{
    'fields: for field in fields {
        if *name == field.name.name {
            return Some(field);
        }
    }
    None
}
