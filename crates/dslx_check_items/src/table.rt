//! The items of a text by their names. Each use of a name means the first item of it.

ghost use Rattle.std.specs.Prelude.{◌≡◌, ◌<◌, ◌^◌, ℕ, List, Some, length, map, slice_get, IfOk};
ghost use Rattle.std.specs.Option.{option_copied};
ghost use Rattle.base.specs.NameTable.Found.{found};
ghost use Rattle.dslx_meaning.specs.Items.{name_of_definition, item_named, as_function, as_constant, as_struct, as_enum};
ghost use Rattle.dslx_meaning.specs.Rules.ModuleRules.{ident_of as the_ident};
ghost use Rattle.dslx_check_items.specs.Items.{item_number, definition_of, as_proc};

use base::name_table::Table;
use base::texts::Name;
use dslx_tree::{Constant, Definition, Enum, Function, Ident, Item, Module, Proc, Struct};
use std::alloc::{AllocError, Global};

/// The items of a text, each named by its number, and the first of each name. A look-up costs the name's length.
#[derive(Drop)]
pub struct ItemTable<'a> {
    pub text: &'a Module,
    firsts: Table<'a, u32>,
    pub ghost few: { length text.now.items < 2 ^ 32 },
    ghost placed: { (name : List ℕ) → found firsts name ≡ item_number name text.now.items },
}

impl<'a> ItemTable<'a> {
    /// The table of a text's items. It takes time as the text is long. A text of more than 2^32 - 1 items is refused as for want of
    /// memory.
    pub fn new(alloc: Global, text: &'a Module) -> Result<ItemTable<'a>, AllocError>
        ensures { IfOk result (λ table. table.text.now ≡ text.now) }
    {
        let items = text.items.as_slice();
        if items.len() > u32::MAX as usize {
            return Err(AllocError);
        }
        let firsts = first_of_each(alloc, items)?;
        Ok(ItemTable { text, firsts })
    }

    /// How many items there are.
    pub fn len(&self) -> u32
        ensures { result ≡ length self.now.text.now.items }
    {
        self.text.items.len() as u32
    }

    /// The item of a number.
    pub fn get(&self, item: u32) -> &'a Definition
        requires { item < length self.now.text.now.items }
        ensures { slice_get (map definition_of self.now.text.now.items) item ≡ Some result.now }
    {
        let items = self.text.items.as_slice();
        &items[item as usize].definition
    }

    /// The number of the first item of a name.
    pub fn find(&self, name: &Name) -> Option<u32>
        ensures { result ≡ item_number name.now self.now.text.now.items }
    {
        self.firsts.get(name.as_str())
    }

    /// The first item of a name.
    pub fn item(&self, name: &Name) -> Option<&'a Definition>
        ensures { option_copied result ≡ item_named name.now self.now.text.now.items }
    {
        match self.find(name) {
            Some(item) => Some(self.get(item)),
            None => None,
        }
    }

    /// The function of a name, if the first item of that name is one.
    pub fn function(&self, name: &Name) -> Option<&'a Function>
        ensures { option_copied result ≡ as_function (item_named name.now self.now.text.now.items) }
    {
        match self.item(name) {
            Some(Definition::Function(function)) => Some(function),
            _ => None,
        }
    }

    /// The proc of a name, if the first item of that name is one.
    pub fn process(&self, name: &Name) -> Option<&'a Proc>
        ensures { option_copied result ≡ as_proc (item_named name.now self.now.text.now.items) }
    {
        match self.item(name) {
            Some(Definition::Proc(process)) => Some(process),
            _ => None,
        }
    }

    /// The constant of a name, if the first item of that name is one.
    pub fn constant(&self, name: &Name) -> Option<&'a Constant>
        ensures { option_copied result ≡ as_constant (item_named name.now self.now.text.now.items) }
    {
        match self.item(name) {
            Some(Definition::Constant(constant)) => Some(constant),
            _ => None,
        }
    }

    /// The struct of a name, if the first item of that name is one.
    pub fn structure(&self, name: &Name) -> Option<&'a Struct>
        ensures { option_copied result ≡ as_struct (item_named name.now self.now.text.now.items) }
    {
        match self.item(name) {
            Some(Definition::Struct(structure)) => Some(structure),
            _ => None,
        }
    }

    /// The enum of a name, if the first item of that name is one.
    pub fn choice(&self, name: &Name) -> Option<&'a Enum>
        ensures { option_copied result ≡ as_enum (item_named name.now self.now.text.now.items) }
    {
        match self.item(name) {
            Some(Definition::Enum(choice)) => Some(choice),
            _ => None,
        }
    }
}

/// The name that an item defines, where the text has it.
pub fn ident_of(definition: &Definition) -> &Ident
    ensures ident { result.now ≡ the_ident definition.now }
    ensures name { result.now.name ≡ name_of_definition definition.now }
{
    match definition {
        Definition::Function(function) => &function.name,
        Definition::Proc(process) => &process.name,
        Definition::Constant(constant) => &constant.name,
        Definition::Alias(alias) => &alias.name,
        Definition::Struct(structure) => &structure.name,
        Definition::Enum(choice) => &choice.name,
    }
}

/// The number of the first item of each name.
fn first_of_each<'a>(alloc: Global, items: &'a [Item]) -> Result<Table<'a, u32>, AllocError>
    requires { length items.now < 2 ^ 32 }
    ensures { IfOk result (λ firsts. (name : List ℕ) → found firsts name ≡ item_number name items.now) }
{
    let mut firsts = Table::new(alloc);
    'items: for i in 0..items.len() {
        let ident = ident_of(&items[i].definition);
        firsts.put_new(ident.name.as_str(), i as u32)?;
    }
    Ok(firsts)
}
