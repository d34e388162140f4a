//! What a pattern is lowered to behind the names that it binds so far.

ghost use Rattle.std.specs.Prelude.{◌≡◌, Some, map, IfOk};
ghost use Rattle.dslx_tree.specs.declared.pattern.Shape.{out-Shape};
ghost use Rattle.dslx_meaning.specs.Values.{bool_value as the_bool};
ghost use Rattle.dslx_meaning.specs.declared.ty.DslxType.{out-DslxType};
ghost use Rattle.dslx_core.specs.Lowering.CoreScopes.{CoreScope};
ghost use Rattle.dslx_core.specs.Lowering.Patterns.{name_shape as the_name_shape, parts_shaped, tuple_shape as the_tuple_shape, value_shape as the_value_shape};
ghost use Rattle.dslx_core.specs.Lowering.Steps.{lower_pattern_of_text};
ghost use Rattle.dslx_core.specs.Machines.Machine.Steps.{number_at};
ghost use Rattle.dslx_scope_names.specs.Patterns.Behind.{fresh_scope, outer_scope, parts_to, shaped_to};
ghost use Rattle.dslx_scope_names.specs.Patterns.Tops.{top_shape};

use crate::names::{constant_named, is_constant_named, member_named, number_there};
use crate::patterns::fresh::{Fresh, Outer};
use crate::patterns::value::value_shape;
use base::texts::Name;
use dslx_core::Shape;
use dslx_meaning::DslxType;
use dslx_tree::{Number, Pattern, Shape as Form};
use dslx_values::{bool_value, copy_name, copy_type};
use std::alloc::{AllocError, Global};
use xb_value::Seq;

/// What a pattern is lowered to against values of the type, if anything; its names are bound behind those that are fresh.
#[cycle(shapes)]
#[tactic(auto, using(crate::proofs::OnPatterns::Opened::by_top))]
pub(crate) fn pattern_shape<'a>(
    alloc: Global,
    outer: Outer<'a>,
    pattern: &'a Pattern,
    ty: &DslxType,
    fresh: &mut Fresh,
) -> Result<Option<Shape>, AllocError>
    ensures { IfOk result (λ s. (lower_pattern_of_text pattern.now).lower (outer_scope outer.entry) (fresh_scope outer.entry fresh.old) ty.now ≡ shaped_to s (fresh_scope outer.entry fresh.new)) }
{
    form_shape(alloc, outer, &pattern.shape, ty, fresh)
}

#[cycle(shapes)]
fn form_shape<'a>(
    alloc: Global,
    outer: Outer<'a>,
    form: &'a Form,
    ty: &DslxType,
    fresh: &mut Fresh,
) -> Result<Option<Shape>, AllocError>
    ensures { IfOk result (λ s. top_shape (out-Shape form.now) (outer_scope outer.entry) (fresh_scope outer.entry fresh.old) ty.now ≡ shaped_to s (fresh_scope outer.entry fresh.new)) }
{
    match form {
        Form::Wild => Ok(Some(Shape::Wild)),
        Form::Bool(holds) => bool_shape(alloc, *holds, ty),
        Form::Number(number) => number_shape(alloc, outer, number, ty),
        Form::Name(name) => name_shape(alloc, outer, name, ty, fresh),
        Form::Member(choice, member) => {
            member_shape(alloc, outer, &choice.name, &member.name, ty)
        }
        Form::Tuple(parts) => tuple_shape(alloc, outer, parts.as_slice(), ty, fresh),
    }
}

fn bool_shape(alloc: Global, holds: bool, ty: &DslxType) -> Result<Option<Shape>, AllocError>
    ensures { IfOk result (λ s. (scope : CoreScope) → the_value_shape (Some (the_bool holds)) scope ty.now ≡ shaped_to s scope) }
{
    value_shape(alloc, Some(bool_value(holds)), ty)
}

/// A number is evaluated in the scope of the whole pattern.
fn number_shape<'a>(
    alloc: Global,
    outer: Outer<'a>,
    number: &'a Number,
    ty: &DslxType,
) -> Result<Option<Shape>, AllocError>
    ensures { IfOk result (λ s. (scope : CoreScope) → the_value_shape (number_at (outer_scope outer.entry) number.now) scope ty.now ≡ shaped_to s scope) }
{
    let value = number_there(alloc, outer.context, number)?;
    value_shape(alloc, value, ty)
}

fn member_shape<'a>(
    alloc: Global,
    outer: Outer<'a>,
    of: &Name,
    member: &Name,
    ty: &DslxType,
) -> Result<Option<Shape>, AllocError>
    ensures { IfOk result (λ s. (scope : CoreScope) → the_value_shape ((outer_scope outer.entry).known.items.member of.now member.now) scope ty.now ≡ shaped_to s scope) }
{
    let value = member_named(alloc, outer.context.text, of, member)?;
    value_shape(alloc, value, ty)
}

/// The value of a constant, or else any value, which the name is bound to.
fn name_shape<'a>(
    alloc: Global,
    outer: Outer<'a>,
    name: &Name,
    ty: &DslxType,
    fresh: &mut Fresh,
) -> Result<Option<Shape>, AllocError>
    ensures { IfOk result (λ s. the_name_shape name.now (fresh_scope outer.entry fresh.old) ty.now ≡ shaped_to s (fresh_scope outer.entry fresh.new)) }
{
    if is_constant_named(outer.context.text, name) {
        let value = constant_named(alloc, outer.context.text, name)?;
        return value_shape(alloc, value, ty);
    }
    fresh.bind(copy_name(alloc, name)?, copy_type(alloc, ty)?)?;
    Ok(Some(Shape::Bound))
}

#[cycle(shapes)]
fn tuple_shape<'a>(
    alloc: Global,
    outer: Outer<'a>,
    parts: &'a [Pattern],
    ty: &DslxType,
    fresh: &mut Fresh,
) -> Result<Option<Shape>, AllocError>
    ensures { IfOk result (λ s. the_tuple_shape (map lower_pattern_of_text parts.now) (outer_scope outer.entry) (fresh_scope outer.entry fresh.old) (out-DslxType ty.now) ≡ shaped_to s (fresh_scope outer.entry fresh.new)) }
{
    match ty {
        DslxType::Tuple(types) => match part_shapes(alloc, outer, parts, types.as_slice(), fresh)? {
            Some(shapes) => Ok(Some(Shape::Tuple(shapes))),
            None => Ok(None),
        },
        _ => Ok(None),
    }
}

/// The parts of a tuple in order, each behind those before it.
#[cycle(shapes)]
fn part_shapes<'a>(
    alloc: Global,
    outer: Outer<'a>,
    parts: &'a [Pattern],
    types: &[DslxType],
    fresh: &mut Fresh,
) -> Result<Option<Seq<Shape>>, AllocError>
    ensures { IfOk result (λ s. parts_shaped (map lower_pattern_of_text parts.now) types.now (outer_scope outer.entry) (fresh_scope outer.entry fresh.old) ≡ parts_to s (fresh_scope outer.entry fresh.new)) }
{
    if parts.len() != types.len() {
        return Ok(None);
    }
    let mut shapes = Vec::new(alloc);
    'parts: for i in 0..parts.len() {
        match pattern_shape(alloc, outer, &parts[i], &types[i], fresh)? {
            Some(shape) => shapes.push(shape)?,
            None => return Ok(None),
        }
    }
    Ok(Some(Seq::from_vec(shapes)))
}
