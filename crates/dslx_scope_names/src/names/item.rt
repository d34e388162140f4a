//! Items by their names.

ghost use Rattle.std.specs.Prelude.{◌≡◌, IfOk};
ghost use Rattle.dslx_meaning.specs.Items.{meanings_of};

use crate::values::{machine_in, run, type_found};
use base::texts::Name;
use dslx_const_tasks::items::use_struct;
use dslx_meaning::DslxType;
use dslx_meaning::names::{Scope, find_constant};
use dslx_tree::Module;
use std::alloc::{AllocError, Global};

/// Whether the first item of this name is a constant. It takes time as there are items before it.
pub fn is_constant_named(text: &Module, name: &Name) -> bool
    ensures { result ≡ (meanings_of text.now).is_constant name.now }
{
    match find_constant(text.items.as_slice(), name) {
        Some(_) => true,
        None => false,
    }
}

/// The type of a struct.
pub fn struct_named(
    alloc: Global,
    text: &Module,
    name: &Name,
) -> Result<Option<DslxType>, AllocError>
    ensures { IfOk result (λ t. t ≡ (meanings_of text.now).struct_named name.now) }
{
    let mut machine = machine_in(alloc, text, Scope::new(alloc));
    use_struct(&mut machine, alloc, name)?;
    let found = run(alloc, machine)?;
    Ok(type_found(found))
}
