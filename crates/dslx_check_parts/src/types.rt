//! Written types.

ghost use Rattle.std.specs.Prelude.{IfOk, false, map};
ghost use Rattle.std.specs.Option.{option_map};
ghost use Rattle.dslx_meaning.specs.declared.ty.DslxType as kind;
ghost use Rattle.dslx_meaning.specs.Rules.ConstantRules.{count_of};
ghost use Rattle.dslx_meaning.specs.Rules.ControlRules.{written_typing};
ghost use Rattle.dslx_meaning.specs.Rules.TypeRules as the;
ghost use Rattle.dslx_check_leaves.specs.Named.Constants.{expr_typed};
ghost use Rattle.dslx_check_facts.specs.Walks.{shown};
ghost use Rattle.dslx_check_leaves.specs.Fits.Typed.{type_typed};
ghost use Rattle.dslx_check_leaves.specs.Typed as tree;
ghost use Rattle.dslx_check_leaves.specs.Walked.{JudgedAll, JudgedIf, JudgesPart, PlacedOne};

use crate::constants::count;
use dslx_check_facts::{Facts, TypeEnv, Walk};
use dslx_check_leaves::type_of_name;
use dslx_check_rules::Typing;
use dslx_check_rules::nodes::counts::wide_typing;
use dslx_check_rules::nodes::{Spanned, written as nodes};
use dslx_tree::{Expr, TypeExpr, TypeNode};
use std::alloc::AllocError;
use xb_span::Span;
use xb_value::Boxed;

/// A written type.
#[cycle(parts)]
pub fn type_expr<'a>(
    f: &Facts<'a>,
    w: &mut Walk,
    s: &mut TypeEnv<'a>,
    ty: &'a TypeExpr,
) -> Result<Typing, AllocError>
    ensures { IfOk result (λ j. JudgesPart f.now s.old s.new (shown w.old) (shown w.new) j (λ context. (type_typed ty.now).1 context)) }
{
    match &ty.node {
        TypeNode::Bits(signed, width) => named_bits(f, w, s, ty.span, *signed, *width),
        TypeNode::Wide(signed, width) => wide_bits(f, w, s, ty.span, *signed, width.get()),
        TypeNode::Bool => bool_name(f, w, s, ty.span),
        TypeNode::Name(name) => type_of_name(f, w, s, ty.span, name),
        TypeNode::Tuple(parts) => tuple_of_types(f, w, s, ty.span, parts.as_slice()),
        TypeNode::Array(part, size) => array_of_type(f, w, s, ty.span, part.get(), size.get()),
    }
}

/// A written type, if there is one.
#[cycle(parts)]
pub fn type_if<'a>(
    f: &Facts<'a>,
    w: &mut Walk,
    s: &mut TypeEnv<'a>,
    ty: &'a Option<Boxed<TypeExpr>>,
) -> Result<Option<Typing>, AllocError>
    ensures { IfOk result (λ j. JudgedIf f.now s.old s.new (shown w.old) (shown w.new) j (λ context. written_typing context (option_map type_typed ty.now))) }
{
    match ty {
        None => Ok(None),
        Some(ty) => {
            let written = type_expr(f, w, s, ty.get())?;
            Ok(Some(written))
        }
    }
}

/// A type inside another.
#[cycle(parts)]
pub fn inner_type<'a>(
    f: &Facts<'a>,
    w: &mut Walk,
    s: &mut TypeEnv<'a>,
    ty: &'a TypeExpr,
) -> Result<Typing, AllocError>
    ensures { IfOk result (λ j. JudgesPart f.now s.old s.new (shown w.old) (shown w.new) j (λ context. the.inner_type context (type_typed ty.now))) }
{
    let own = type_expr(f, w, s, ty)?;
    Ok(nodes::inner_type(&w.types, ty.span, own))
}

/// A type beside its span.
#[cycle(parts)]
pub fn placed_type<'a>(
    f: &Facts<'a>,
    w: &mut Walk,
    s: &mut TypeEnv<'a>,
    ty: &'a TypeExpr,
) -> Result<Spanned, AllocError>
    ensures { IfOk result (λ p. PlacedOne f.now s.old s.new (shown w.old) (shown w.new) p (λ context. tree.placed_type context ty.now)) }
{
    let typing = type_expr(f, w, s, ty)?;
    Ok(Spanned {
        span: ty.span,
        typing,
    })
}

#[cycle(parts)]
fn all_types<'a>(
    f: &Facts<'a>,
    w: &mut Walk,
    s: &mut TypeEnv<'a>,
    types: &'a [TypeExpr],
) -> Result<Vec<Spanned>, AllocError>
    ensures { IfOk result (λ all. JudgedAll f.now s.old s.new (shown w.old) (shown w.new) all.items (λ context. map (tree.placed_type context) types.now)) }
{
    let mut all = Vec::new(f.alloc);
    'types: for i in 0..types.len() {
        let one = placed_type(f, w, s, &types[i])?;
        all.push(one)?;
    }
    Ok(all)
}

/// A tuple of types.
#[cycle(parts)]
fn tuple_of_types<'a>(
    f: &Facts<'a>,
    w: &mut Walk,
    s: &mut TypeEnv<'a>,
    span: Span,
    parts: &'a [TypeExpr],
) -> Result<Typing, AllocError>
    ensures { IfOk result (λ j. JudgesPart f.now s.old s.new (shown w.old) (shown w.new) j (tree.tuple_at span parts.now)) }
{
    let all = all_types(f, w, s, parts)?;
    nodes::tuple_type(f.alloc, &mut w.types, span, all.as_slice())
}

/// An array of a type.
#[cycle(parts)]
fn array_of_type<'a>(
    f: &Facts<'a>,
    w: &mut Walk,
    s: &mut TypeEnv<'a>,
    span: Span,
    part: &'a TypeExpr,
    size: &'a Expr,
) -> Result<Typing, AllocError>
    ensures { IfOk result (λ j. JudgesPart f.now s.old s.new (shown w.old) (shown w.new) j (λ context. the.array_of span (the.inner_type context (type_typed part.now)) (count_of context (expr_typed size.now)))) }
{
    let of = inner_type(f, w, s, part)?;
    let number = count(f, w, s, size)?;
    nodes::array_type(&mut w.types, span, of, number)
}

/// Bits of a width that is computed.
#[cycle(parts)]
fn wide_bits<'a>(
    f: &Facts<'a>,
    w: &mut Walk,
    s: &mut TypeEnv<'a>,
    span: Span,
    signed: bool,
    width: &'a Expr,
) -> Result<Typing, AllocError>
    ensures { IfOk result (λ j. JudgesPart f.now s.old s.new (shown w.old) (shown w.new) j (tree.wide_at span signed width.now)) }
{
    let number = count(f, w, s, width)?;
    wide_typing(&mut w.types, span, signed, number)
}

/// Bits of a width that stands in their name.
fn named_bits<'a>(
    f: &Facts<'a>,
    w: &mut Walk,
    s: &mut TypeEnv<'a>,
    span: Span,
    signed: bool,
    width: u8,
) -> Result<Typing, AllocError>
    ensures { IfOk result (λ j. JudgesPart f.now s.old s.new (shown w.old) (shown w.new) j (λ context. the.named_bits span signed width)) }
{
    nodes::bits_type(&mut w.types, span, signed, width as u128)
}

fn bool_name<'a>(
    f: &Facts<'a>,
    w: &mut Walk,
    s: &mut TypeEnv<'a>,
    span: Span,
) -> Result<Typing, AllocError>
    ensures { IfOk result (λ j. JudgesPart f.now s.old s.new (shown w.old) (shown w.new) j (λ context. the.whole_type span (kind.Bits false 1))) }
{
    nodes::bool_type(&mut w.types, span)
}
