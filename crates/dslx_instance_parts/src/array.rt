//! Arrays.

ghost use Rattle.std.specs.Prelude.{◌≡◌, List, [], Some, IfOk, not};
ghost use Rattle.dslx_meaning.specs.Lists.{where_true};
ghost use Rattle.dslx_core.specs.Lowering.Functions.{CoreInstance};
ghost use Rattle.dslx_core.specs.Lowering.Trees.{lower_type_of_text};
ghost use Rattle.dslx_core.specs.Machines.Machine.Bodies.{scope_in};
ghost use Rattle.dslx_core.specs.Machines.Machine.Parts.{array_begins, gathers};
ghost use Rattle.dslx_core.specs.Machines.Machine.Tasks.{MakesArray};
ghost use Rattle.dslx_instance_parts.specs.Inner.Arrays.{fills_type};
ghost use Rattle.dslx_instance.specs.Tasks.Shown.{body_shown, instance_env_of};

use crate::order::gather;
use dslx_instance::tasks::{OpenBody, PartsMaker};
use dslx_meaning::DslxType;
use dslx_scope_names::scopes::type_in_body;
use dslx_tree::{Expr, Module, TypeExpr};
use std::alloc::{AllocError, Global};
use xb_value::Boxed;

/// An array of these elements is to be made; without a type the first one decides, and none is repeated.
pub fn begin_array<'a>(
    body: &mut OpenBody<'a>,
    alloc: Global,
    text: &'a Module,
    ty: &'a Option<Boxed<TypeExpr>>,
    elements: &'a [Expr],
    dots: bool,
) -> Result<bool, AllocError>
    ensures { IfOk result (λ is. (table : List CoreInstance) → where_true is (Some (body_shown body.new)) ≡ array_begins ty.now (instance_env_of text.now table) elements.now dots (body_shown body.old)) }
{
    match ty {
        Some(ty) => begin_typed(body, alloc, text, ty.get(), elements, dots),
        None => begin_untyped(body, alloc, text, elements, dots),
    }
}

fn begin_typed<'a>(
    body: &mut OpenBody<'a>,
    alloc: Global,
    text: &'a Module,
    ty: &'a TypeExpr,
    elements: &'a [Expr],
    dots: bool,
) -> Result<bool, AllocError>
    ensures { IfOk result (λ is. (table : List CoreInstance) → where_true is (Some (body_shown body.new)) ≡ fills_type (lower_type_of_text ty.now (scope_in (instance_env_of text.now table) (body_shown body.old))) (instance_env_of text.now table) elements.now dots (body_shown body.old)) }
{
    let ty = type_in_body(alloc, text, body, ty)?;
    begin_filled(body, alloc, text, ty, elements, dots)
}

fn begin_untyped<'a>(
    body: &mut OpenBody<'a>,
    alloc: Global,
    text: &'a Module,
    elements: &'a [Expr],
    dots: bool,
) -> Result<bool, AllocError>
    ensures { IfOk result (λ is. (table : List CoreInstance) → where_true is (Some (body_shown body.new)) ≡ where_true (not dots) (gathers (instance_env_of text.now table) [] elements.now MakesArray (body_shown body.old))) }
{
    if dots {
        Ok(false)
    } else {
        gather(
            body,
            alloc,
            text,
            Vec::new(alloc),
            elements,
            PartsMaker::Array,
        )
    }
}

/// The type is to be an array's.
fn begin_filled<'a>(
    body: &mut OpenBody<'a>,
    alloc: Global,
    text: &'a Module,
    ty: Option<DslxType>,
    elements: &'a [Expr],
    dots: bool,
) -> Result<bool, AllocError>
    ensures { IfOk result (λ is. (table : List CoreInstance) → where_true is (Some (body_shown body.new)) ≡ fills_type ty (instance_env_of text.now table) elements.now dots (body_shown body.old)) }
{
    match ty {
        Some(DslxType::Array(element, size)) => gather(
            body,
            alloc,
            text,
            Vec::new(alloc),
            elements,
            PartsMaker::Fill(element.into_inner(), size, dots),
        ),
        _ => Ok(false),
    }
}
