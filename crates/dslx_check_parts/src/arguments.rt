//! Operands, parametric arguments and fields, one after another.

ghost use Rattle.std.specs.Prelude.{IfOk, map};
ghost use Rattle.std.specs.Option.{option_map};
ghost use Rattle.dslx_check_facts.specs.Walks.{shown};
ghost use Rattle.dslx_check_leaves.specs.Typed as tree;
ghost use Rattle.dslx_check_leaves.specs.Walked.{JudgedAll, JudgedGiven, PlacedIf, PlacedOne};
ghost use Rattle.dslx_check_parts.specs.Parts.{GivenOne};

use crate::constants::constant;
use crate::exprs::{alone, placed};
use dslx_check_facts::{Facts, TypeEnv, Walk};
use dslx_check_leaves::name_node;
use dslx_check_rules::control::calls::ParametricArgument;
use dslx_check_rules::nodes::Spanned;
use dslx_check_rules::nodes::aggregates::no_token;
use dslx_tree::{Arg, Expr, FieldValue};
use std::alloc::AllocError;
use xb_value::Boxed;

/// Values that stand alone, one after another.
#[cycle(parts)]
pub fn all_placed<'a>(
    f: &Facts<'a>,
    w: &mut Walk,
    s: &mut TypeEnv<'a>,
    operands: &'a [Expr],
) -> Result<Vec<Spanned>, AllocError>
    ensures { IfOk result (λ all. JudgedAll f.now s.old s.new (shown w.old) (shown w.new) all.items (λ context. map (tree.placed context) operands.now)) }
{
    let mut all = Vec::new(f.alloc);
    'operands: for i in 0..operands.len() {
        let one = placed(f, w, s, &operands[i])?;
        all.push(one)?;
    }
    Ok(all)
}

/// Parametric arguments that are written.
#[cycle(parts)]
pub fn all_given<'a>(
    f: &Facts<'a>,
    w: &mut Walk,
    s: &mut TypeEnv<'a>,
    args: &'a [Arg],
) -> Result<Vec<ParametricArgument>, AllocError>
    ensures { IfOk result (λ all. JudgedGiven f.now s.old s.new (shown w.old) (shown w.new) all.items (λ context. map (tree.given_at context) args.now)) }
{
    let mut all = Vec::new(f.alloc);
    'given: for i in 0..args.len() {
        let one = one_given(f, w, s, &args[i])?;
        all.push(one)?;
    }
    Ok(all)
}

#[cycle(parts)]
fn one_given<'a>(
    f: &Facts<'a>,
    w: &mut Walk,
    s: &mut TypeEnv<'a>,
    arg: &'a Arg,
) -> Result<ParametricArgument, AllocError>
    ensures { IfOk result (λ given. GivenOne f.now s.old s.new (shown w.old) (shown w.new) given (λ context. tree.given_at context arg.now)) }
{
    let value = constant(f, w, s, &arg.value)?;
    Ok(ParametricArgument {
        span: arg.value.span,
        constant: value,
    })
}

/// The fields of a struct value.
#[cycle(parts)]
pub(crate) fn all_fields<'a>(
    f: &Facts<'a>,
    w: &mut Walk,
    s: &mut TypeEnv<'a>,
    fields: &'a [FieldValue],
) -> Result<Vec<Spanned>, AllocError>
    ensures { IfOk result (λ all. JudgedAll f.now s.old s.new (shown w.old) (shown w.new) all.items (λ context. map (tree.placed_field context) fields.now)) }
{
    let mut all = Vec::new(f.alloc);
    'fields: for i in 0..fields.len() {
        let one = one_field(f, w, s, &fields[i])?;
        all.push(one)?;
    }
    Ok(all)
}

/// The value of a field; without one it is what its name stands for.
#[cycle(parts)]
fn one_field<'a>(
    f: &Facts<'a>,
    w: &mut Walk,
    s: &mut TypeEnv<'a>,
    field: &'a FieldValue,
) -> Result<Spanned, AllocError>
    ensures { IfOk result (λ p. PlacedOne f.now s.old s.new (shown w.old) (shown w.new) p (λ context. tree.placed_field context field.now)) }
{
    match &field.value {
        Some(value) => {
            let e = value.get();
            let typing = alone(f, w, s, e)?;
            Ok(Spanned {
                span: e.span,
                typing,
            })
        }
        None => {
            let value = name_node(f, w, s, field.name.span, &field.name.name)?;
            Ok(Spanned {
                span: field.name.span,
                typing: no_token(&w.types, field.name.span, value),
            })
        }
    }
}

/// What gives the other fields of a struct value, if something does.
#[cycle(parts)]
pub(crate) fn placed_if<'a>(
    f: &Facts<'a>,
    w: &mut Walk,
    s: &mut TypeEnv<'a>,
    e: &'a Option<Boxed<Expr>>,
) -> Result<Option<Spanned>, AllocError>
    ensures { IfOk result (λ p. PlacedIf f.now s.old s.new (shown w.old) (shown w.new) p (λ context. option_map (tree.placed context) e.now)) }
{
    match e {
        None => Ok(None),
        Some(e) => {
            let inner = e.get();
            let typing = alone(f, w, s, inner)?;
            Ok(Some(Spanned {
                span: inner.span,
                typing,
            }))
        }
    }
}
