//! Expressions that are lowered at once.

ghost use Rattle.std.specs.Prelude.{◌≡◌, List, Some, IfOk};
ghost use Rattle.dslx_meaning.specs.Items.{meanings_of};
ghost use Rattle.dslx_meaning.specs.Lists.{and_then, where_true};
ghost use Rattle.dslx_meaning.specs.Values.{bool_value as truth_value};
ghost use Rattle.dslx_core.specs.Lowering.Functions.{CoreInstance};
ghost use Rattle.dslx_core.specs.Lowering.Lowering.{literal as the_literal, lower_name};
ghost use Rattle.dslx_core.specs.Machines.Machine.Bodies.{gives, scope_in};
ghost use Rattle.dslx_core.specs.Machines.Machine.Steps.{number_at};
ghost use Rattle.dslx_instance.specs.Tasks.Shown.{body_shown, instance_env_of};

use base::texts::Name;
use dslx_instance::tasks::OpenBody;
use dslx_instance_parts::{literal_if, member_named, name_in_body, number_in_body};
use dslx_tree::{Module, Number};
use dslx_values::bool_value;
use std::alloc::{AllocError, Global};

pub(crate) fn give_number<'a>(
    body: &mut OpenBody<'a>,
    alloc: Global,
    text: &'a Module,
    number: &'a Number,
) -> Result<bool, AllocError>
    ensures { IfOk result (λ is. (table : List CoreInstance) → where_true is (Some (body_shown body.new)) ≡ gives (and_then (number_at (scope_in (instance_env_of text.now table) (body_shown body.old)) number.now) the_literal) (body_shown body.old)) }
{
    let value = number_in_body(alloc, text, body, number)?;
    body.give_if(value)
}

pub(crate) fn give_bool(body: &mut OpenBody, alloc: Global, holds: bool) -> Result<bool, AllocError>
    ensures { IfOk result (λ is. where_true is (Some (body_shown body.new)) ≡ gives (the_literal (truth_value holds)) (body_shown body.old)) }
{
    let value = literal_if(alloc, Some(bool_value(holds)))?;
    body.give_if(value)
}

pub(crate) fn give_name<'a>(
    body: &mut OpenBody<'a>,
    alloc: Global,
    text: &'a Module,
    name: &'a Name,
) -> Result<bool, AllocError>
    ensures { IfOk result (λ is. (table : List CoreInstance) → where_true is (Some (body_shown body.new)) ≡ gives (lower_name name.now (scope_in (instance_env_of text.now table) (body_shown body.old))) (body_shown body.old)) }
{
    let value = name_in_body(alloc, text, body, name)?;
    body.give_if(value)
}

/// A member of an enum.
pub(crate) fn give_member<'a>(
    body: &mut OpenBody<'a>,
    alloc: Global,
    text: &'a Module,
    choice: &'a Name,
    member: &'a Name,
) -> Result<bool, AllocError>
    ensures { IfOk result (λ is. where_true is (Some (body_shown body.new)) ≡ gives (and_then ((meanings_of text.now).member choice.now member.now) the_literal) (body_shown body.old)) }
{
    let value = member_named(alloc, text, choice, member)?;
    let value = literal_if(alloc, value)?;
    body.give_if(value)
}
