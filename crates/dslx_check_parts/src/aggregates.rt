//! Tuples, struct values, and the parts of values.

ghost use Rattle.std.specs.Prelude.{IfOk, map};
ghost use Rattle.std.specs.Option.{option_map};
ghost use Rattle.dslx_meaning.specs.Rules.AggregateRules as the;
ghost use Rattle.dslx_check_leaves.specs.Named.Constants.{expr_typed};
ghost use Rattle.dslx_check_facts.specs.Walks.{shown};
ghost use Rattle.dslx_check_leaves.specs.Typed as tree;
ghost use Rattle.dslx_check_leaves.specs.Walked.{JudgesPart};

use crate::arguments::{all_fields, all_placed, placed_if};
use crate::exprs::{alone, expr};
use dslx_check_facts::{Facts, TypeEnv, Walk};
use dslx_check_rules::Typing;
use dslx_check_rules::nodes::aggregates as nodes;
use dslx_check_rules::nodes::arrays::tuple_typing;
use dslx_check_rules::nodes::structs::field_part_typing;
use dslx_check_uses::{field_of, struct_of};
use dslx_tree::{Expr, FieldValue, Ident};
use std::alloc::AllocError;
use xb_span::Span;
use xb_value::Boxed;

/// An element of an array.
#[cycle(parts)]
pub(crate) fn index<'a>(
    f: &Facts<'a>,
    w: &mut Walk,
    s: &mut TypeEnv<'a>,
    span: Span,
    whole: &'a Expr,
    place: &'a Expr,
) -> Result<Typing, AllocError>
    ensures { IfOk result (λ j. JudgesPart f.now s.old s.new (shown w.old) (shown w.new) j (λ context. the.index_typing span context (expr_typed whole.now) (expr_typed place.now))) }
{
    let array = alone(f, w, s, whole)?;
    let at = alone(f, w, s, place)?;
    Ok(nodes::index_typing(&w.types, span, array, at))
}

/// A field of a struct value.
#[cycle(parts)]
pub(crate) fn field<'a>(
    f: &Facts<'a>,
    w: &mut Walk,
    s: &mut TypeEnv<'a>,
    span: Span,
    whole: &'a Expr,
    name: &Ident,
) -> Result<Typing, AllocError>
    ensures { IfOk result (λ j. JudgesPart f.now s.old s.new (shown w.old) (shown w.new) j (λ context. the.field_part_typing span context (expr_typed whole.now) name.now)) }
{
    let value = alone(f, w, s, whole)?;
    let ty = field_of(f, &w.types, value.ty, &name.name);
    Ok(field_part_typing(&w.types, span, value, ty))
}

/// An element of a tuple.
#[cycle(parts)]
pub(crate) fn element<'a>(
    f: &Facts<'a>,
    w: &mut Walk,
    s: &mut TypeEnv<'a>,
    span: Span,
    whole: &'a Expr,
    place: u128,
) -> Result<Typing, AllocError>
    ensures { IfOk result (λ j. JudgesPart f.now s.old s.new (shown w.old) (shown w.new) j (λ context. the.tuple_element_typing span context (expr_typed whole.now) place)) }
{
    let value = expr(f, w, s, whole, false)?;
    Ok(nodes::tuple_element_typing(&w.types, span, whole.span, place, value))
}

/// A tuple.
#[cycle(parts)]
pub(crate) fn tuple<'a>(
    f: &Facts<'a>,
    w: &mut Walk,
    s: &mut TypeEnv<'a>,
    span: Span,
    parts: &'a [Expr],
) -> Result<Typing, AllocError>
    ensures { IfOk result (λ j. JudgesPart f.now s.old s.new (shown w.old) (shown w.new) j (λ context. the.tuple_typing span context (map expr_typed parts.now))) }
{
    let all = all_placed(f, w, s, parts)?;
    tuple_typing(f.alloc, &mut w.types, span, all.as_slice())
}

/// A struct value.
#[cycle(parts)]
pub(crate) fn structure<'a>(
    f: &Facts<'a>,
    w: &mut Walk,
    s: &mut TypeEnv<'a>,
    span: Span,
    name: &'a Ident,
    fields: &'a [FieldValue],
    others: &'a Option<Boxed<Expr>>,
) -> Result<Typing, AllocError>
    ensures { IfOk result (λ j. JudgesPart f.now s.old s.new (shown w.old) (shown w.new) j (λ context. the.struct_typing span context name.now (map tree.field_typed fields.now) (option_map expr_typed others.now))) }
{
    let values = all_fields(f, w, s, fields)?;
    let rest = placed_if(f, w, s, others)?;
    struct_of(f, w, s, span, name, fields, values.as_slice(), rest)
}
