//! Arrays and their elements.

ghost use Rattle.std.specs.Prelude.{IfOk, map};
ghost use Rattle.std.specs.Option.{option_map};
ghost use Rattle.dslx_meaning.specs.Rules.AggregateRules as the;
ghost use Rattle.dslx_meaning.specs.Rules.ControlRules.{written_typing};
ghost use Rattle.dslx_check_leaves.specs.Named.Constants.{expr_typed};
ghost use Rattle.dslx_check_facts.specs.Walks.{shown};
ghost use Rattle.dslx_check_leaves.specs.Fits.Typed.{type_typed};
ghost use Rattle.dslx_check_leaves.specs.Typed as tree;
ghost use Rattle.dslx_check_leaves.specs.Walked.{ElementAll, ElementOne, JudgesPart};

use crate::arguments::all_placed;
use crate::exprs::alone;
use crate::types::type_expr;
use dslx_check_facts::{Facts, TypeEnv, Walk};
use dslx_check_leaves::untyped_of;
use dslx_check_rules::Typing;
use dslx_check_rules::nodes::Spanned;
use dslx_check_rules::nodes::arrays::{Element, typed_array_typing, untyped_array_typing};
use dslx_tree::{Expr, TypeExpr};
use std::alloc::AllocError;
use xb_span::Span;
use xb_value::Boxed;

/// An array, of a type that is written or of its first element's.
#[cycle(parts)]
pub(crate) fn array<'a>(
    f: &Facts<'a>,
    w: &mut Walk,
    s: &mut TypeEnv<'a>,
    span: Span,
    ty: &'a Option<Boxed<TypeExpr>>,
    elements: &'a [Expr],
    dots: bool,
) -> Result<Typing, AllocError>
    ensures { IfOk result (λ j. JudgesPart f.now s.old s.new (shown w.old) (shown w.new) j (λ context. the.array_typing span context (written_typing context (option_map type_typed ty.now)) (map expr_typed elements.now) dots)) }
{
    match ty {
        None => untyped_array(f, w, s, span, elements, dots),
        Some(ty) => typed_array(f, w, s, span, ty.get(), elements, dots),
    }
}

#[cycle(parts)]
fn untyped_array<'a>(
    f: &Facts<'a>,
    w: &mut Walk,
    s: &mut TypeEnv<'a>,
    span: Span,
    elements: &'a [Expr],
    dots: bool,
) -> Result<Typing, AllocError>
    ensures { IfOk result (λ j. JudgesPart f.now s.old s.new (shown w.old) (shown w.new) j (λ context. the.untyped_array span context (map expr_typed elements.now) dots)) }
{
    let all = all_placed(f, w, s, elements)?;
    untyped_array_typing(&mut w.types, span, all.as_slice(), dots)
}

#[cycle(parts)]
fn typed_array<'a>(
    f: &Facts<'a>,
    w: &mut Walk,
    s: &mut TypeEnv<'a>,
    span: Span,
    ty: &'a TypeExpr,
    elements: &'a [Expr],
    dots: bool,
) -> Result<Typing, AllocError>
    ensures { IfOk result (λ j. JudgesPart f.now s.old s.new (shown w.old) (shown w.new) j (λ context. the.typed_array span context ((type_typed ty.now).1 context) (map expr_typed elements.now) dots)) }
{
    let written = type_expr(f, w, s, ty)?;
    let all = all_elements(f, w, s, elements)?;
    Ok(typed_array_typing(&w.types, span, written, all.as_slice(), dots))
}

/// The elements of an array that has a type.
#[cycle(parts)]
fn all_elements<'a>(
    f: &Facts<'a>,
    w: &mut Walk,
    s: &mut TypeEnv<'a>,
    elements: &'a [Expr],
) -> Result<Vec<Element>, AllocError>
    ensures { IfOk result (λ all. ElementAll f.now s.old s.new (shown w.old) (shown w.new) all.items (λ context. map (tree.element_at context) elements.now)) }
{
    let mut all = Vec::new(f.alloc);
    'elements: for i in 0..elements.len() {
        let element = one_element(f, w, s, &elements[i])?;
        all.push(element)?;
    }
    Ok(all)
}

/// A number without a type, or a value.
#[cycle(parts)]
fn one_element<'a>(
    f: &Facts<'a>,
    w: &mut Walk,
    s: &mut TypeEnv<'a>,
    e: &'a Expr,
) -> Result<Element, AllocError>
    ensures { IfOk result (λ element. ElementOne f.now s.old s.new (shown w.old) (shown w.new) element (λ context. tree.element_at context e.now)) }
{
    match untyped_of(e) {
        Some(number) => Ok(Element::Untyped(e.span, number)),
        None => {
            let typing = alone(f, w, s, e)?;
            let value = Spanned {
                span: e.span,
                typing,
            };
            Ok(Element::Value(value))
        }
    }
}
