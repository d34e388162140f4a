//! The values of names.

ghost use Rattle.std.specs.Prelude.{◌≡◌, IfOk};
ghost use Rattle.dslx_meaning.specs.Environment.{value_of_name};
ghost use Rattle.dslx_meaning.specs.Items.{meanings_of};

use crate::values::{machine_in, run, value_found};
use base::texts::Name;
use dslx_const_tasks::items::{use_member, use_name};
use dslx_meaning::DslxValue;
use dslx_meaning::names::Scope;
use dslx_tree::Module;
use std::alloc::{AllocError, Global};

/// The value of a name where these are bound: that of the last one of this name, or else a constant's, which is evaluated.
pub(crate) fn value_named<'a>(
    alloc: Global,
    text: &'a Module,
    bound: Scope<'a>,
    name: &Name,
) -> Result<Option<DslxValue>, AllocError>
    ensures { IfOk result (λ v. v ≡ value_of_name name.now (record { items = meanings_of text.now; bound = bound.entry })) }
{
    let mut machine = machine_in(alloc, text, bound);
    use_name(&mut machine, alloc, name)?;
    let found = run(alloc, machine)?;
    Ok(value_found(found))
}

/// The value of a constant, which is evaluated anew.
pub fn constant_named(
    alloc: Global,
    text: &Module,
    name: &Name,
) -> Result<Option<DslxValue>, AllocError>
    ensures { IfOk result (λ v. v ≡ (meanings_of text.now).constant name.now) }
{
    value_named(alloc, text, Scope::new(alloc), name)
}

/// The value of an enum's member, which is evaluated anew.
pub fn member_named(
    alloc: Global,
    text: &Module,
    of: &Name,
    member: &Name,
) -> Result<Option<DslxValue>, AllocError>
    ensures { IfOk result (λ v. v ≡ (meanings_of text.now).member of.now member.now) }
{
    let mut machine = machine_in(alloc, text, Scope::new(alloc));
    use_member(&mut machine, alloc, of, member)?;
    let found = run(alloc, machine)?;
    Ok(value_found(found))
}
