//! What is made of what was made last.

ghost use Rattle.std.specs.Prelude.{◌≡◌, List, Some, IfOk};
ghost use Rattle.dslx_meaning.specs.Lists.{and_then, where_true};
ghost use Rattle.dslx_core.specs.Lowering.Functions.{CoreInstance};
ghost use Rattle.dslx_core.specs.Lowering.Lowering.{LoweredExpr, lower_cast, lower_field as the_field, lower_part, lower_slice};
ghost use Rattle.dslx_core.specs.Lowering.CoreScopes.{bound_at};
ghost use Rattle.dslx_core.specs.Lowering.Trees.{lower_type_of_text};
ghost use Rattle.dslx_core.specs.Machines.Machine.Bodies.{scope_in, with_made};
ghost use Rattle.dslx_core.specs.Machines.Machine.Steps.{made_of_last, of_last, of_last_two};
ghost use Rattle.dslx_instance.specs.Tasks.Shown.{body_shown, last_shown, instance_env_of};

use base::stacks::Stack;
use base::texts::Name;
use dslx_core::lowering::LoweredExpr;
use dslx_core_exprs::aggregates::lower_field;
use dslx_instance::tasks::{LastMaker, OpenBody};
use dslx_instance_parts::{
    bound_in_body, make_binary, make_cast, make_choice, make_element, make_indexed, make_part,
    make_prefix, make_slice, type_in_body,
};
use dslx_tree::{Expr, Module, TypeExpr};
use std::alloc::{AllocError, Global};

/// What the maker makes takes the place of what it is made of; whether there is such.
pub(crate) fn make_last<'a>(
    body: &mut OpenBody<'a>,
    alloc: Global,
    text: &'a Module,
    maker: LastMaker<'a>,
) -> Result<bool, AllocError>
    ensures { IfOk result (λ is. (table : List CoreInstance) → where_true is (Some (body_shown body.new)) ≡ and_then (made_of_last (last_shown maker.entry) (scope_in (instance_env_of text.now table) (body_shown body.old)) (body_shown body.old).made) (λ made. Some (with_made made (body_shown body.old)))) }
{
    match maker {
        LastMaker::Prefix(prefix) => make_prefix(&mut body.made, alloc, prefix),
        LastMaker::Binary(operator) => make_binary(&mut body.made, alloc, operator),
        LastMaker::Cast(ty) => cast(body, alloc, text, ty),
        LastMaker::Slice(from, to) => slice(body, alloc, text, from, to),
        LastMaker::Part(ty) => part(body, alloc, text, ty),
        LastMaker::Field(name) => make_field(&mut body.made, alloc, name),
        LastMaker::Element(place) => make_element(&mut body.made, alloc, place),
        LastMaker::Index => make_indexed(&mut body.made, alloc),
        LastMaker::Choice => make_choice(&mut body.made, alloc),
    }
}

fn cast<'a>(
    body: &mut OpenBody<'a>,
    alloc: Global,
    text: &'a Module,
    ty: &'a TypeExpr,
) -> Result<bool, AllocError>
    ensures { IfOk result (λ is. (table : List CoreInstance) → where_true is (Some (body_shown body.new)) ≡ and_then (of_last (body_shown body.old).made (λ e. lower_cast (Some e) (lower_type_of_text ty.now (scope_in (instance_env_of text.now table) (body_shown body.old))))) (λ made. Some (with_made made (body_shown body.old)))) }
{
    let ty = type_in_body(alloc, text, body, ty)?;
    make_cast(&mut body.made, alloc, ty)
}

fn slice<'a>(
    body: &mut OpenBody<'a>,
    alloc: Global,
    text: &'a Module,
    from: &'a Expr,
    to: &'a Expr,
) -> Result<bool, AllocError>
    ensures { IfOk result (λ is. (table : List CoreInstance) → where_true is (Some (body_shown body.new)) ≡ and_then (of_last (body_shown body.old).made (λ e. lower_slice (Some e) (bound_at (scope_in (instance_env_of text.now table) (body_shown body.old)) from.now) (bound_at (scope_in (instance_env_of text.now table) (body_shown body.old)) to.now))) (λ made. Some (with_made made (body_shown body.old)))) }
{
    let from = bound_in_body(alloc, text, body, from)?;
    let to = bound_in_body(alloc, text, body, to)?;
    make_slice(&mut body.made, alloc, from, to)
}

fn part<'a>(
    body: &mut OpenBody<'a>,
    alloc: Global,
    text: &'a Module,
    ty: &'a TypeExpr,
) -> Result<bool, AllocError>
    ensures { IfOk result (λ is. (table : List CoreInstance) → where_true is (Some (body_shown body.new)) ≡ and_then (of_last_two (body_shown body.old).made (λ e i. lower_part (Some e) (Some i) (lower_type_of_text ty.now (scope_in (instance_env_of text.now table) (body_shown body.old))))) (λ made. Some (with_made made (body_shown body.old)))) }
{
    let ty = type_in_body(alloc, text, body, ty)?;
    make_part(&mut body.made, alloc, &ty)
}

/// The field of this name.
fn make_field(made: &mut Stack<LoweredExpr>, alloc: Global, name: &Name) -> Result<bool, AllocError>
    ensures { IfOk result (λ is. where_true is (Some made.new) ≡ of_last made.old (λ e. the_field (Some e) name.now)) }
{
    match made.take_off() {
        Some(value) => match lower_field(alloc, value, name)? {
            Some(field) => {
                made.push(field)?;
                Ok(true)
            }
            None => Ok(false),
        },
        None => Ok(false),
    }
}
