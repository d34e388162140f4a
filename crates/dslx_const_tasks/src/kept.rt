//! What is kept of the items of a text.

ghost use Rattle.std.specs.Prelude.{◌≡◌, IfOk, slice_get};
ghost use Rattle.std.specs.Option.{option_copied};
ghost use Rattle.dslx_meaning.specs.Lists.{and_then};
ghost use Rattle.dslx_const_tasks.specs.Values.{at_place, constant_kept, hidden_at, hides_name, member_at, member_from, member_kept, member_number};

use base::texts::Name;
use dslx_check_items::ItemTable;
use dslx_meaning::DslxValue;
use dslx_tree::{Enum, Member};
use dslx_values::copy_value;
use std::alloc::{AllocError, Global};

/// The values of constants and of the members of enums, by the numbers of their items; none where an item has none, or isn't known.
///
/// Types that are refused, and what reaches itself, are hidden: such a type is none, and such a function has no value.
#[derive(Drop)]
pub struct Kept<'a> {
    pub items: ItemTable<'a>,
    pub constants: Vec<Option<DslxValue>>,
    pub members: Vec<Vec<Option<DslxValue>>>,
    pub hidden: Vec<bool>,
}

impl<'a> Kept<'a> {
    /// Whether the first item of a name is hidden.
    pub fn hides(&self, name: &Name) -> bool
        ensures { result ≡ hides_name self.now name.now }
    {
        match self.items.find(name) {
            Some(item) => self.hides_item(item),
            None => false,
        }
    }

    /// Whether the item of a number is hidden.
    pub fn hides_item(&self, item: u32) -> bool
        ensures { result ≡ hidden_at self.now item }
    {
        match self.hidden.get(item as usize) {
            Some(hidden) => *hidden,
            None => false,
        }
    }

    /// The value of the constant of a name.
    pub fn constant(&self, name: &Name) -> Option<&DslxValue>
        ensures { option_copied result ≡ constant_kept self.now name.now }
    {
        match self.items.find(name) {
            Some(item) => value_there(self.constants.as_slice(), item as usize),
            None => None,
        }
    }

    /// The value of a member of an enum.
    pub fn member(&self, choice: &Name, member: &Name) -> Option<&DslxValue>
        ensures { option_copied result ≡ member_kept self.now choice.now member.now }
    {
        match (self.items.find(choice), self.items.choice(choice)) {
            (Some(item), Some(declared)) => self.member_of(item as usize, declared, member),
            _ => None,
        }
    }

    fn member_of(&self, item: usize, declared: &Enum, member: &Name) -> Option<&DslxValue>
        ensures { option_copied result ≡ and_then (member_number member.now declared.now.members) (λ k. member_at self.now item k) }
    {
        match member_place(declared.members.as_slice(), member) {
            Some(place) => match self.members.get(item) {
                Some(values) => value_there(values.as_slice(), place),
                None => None,
            },
            None => None,
        }
    }
}

/// What stands at a place, if something does.
fn value_there(values: &[Option<DslxValue>], place: usize) -> Option<&DslxValue>
    ensures { option_copied result ≡ at_place values.now place }
{
    match values.get(place) {
        Some(Some(value)) => Some(value),
        _ => None,
    }
}

/// The place of the first member of a name.
fn member_place(members: &[Member], name: &Name) -> Option<usize>
    ensures { result ≡ member_number name.now members.now }
{
    'members: for i in 0..members.len() {
        if *name == members[i].name.name {
            return Some(i);
        }
    }
    None
}

/// A copy of a value, if there is one.
pub fn copy_if(alloc: Global, value: Option<&DslxValue>) -> Result<Option<DslxValue>, AllocError>
    ensures { IfOk result (λ v. v ≡ option_copied value.entry) }
{
    match value {
        Some(value) => Ok(Some(copy_value(alloc, value)?)),
        None => Ok(None),
    }
}
