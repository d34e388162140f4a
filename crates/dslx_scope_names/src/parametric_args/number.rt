//! A parametric that isn't given.

ghost use Rattle.std.specs.Prelude.{◌≡◌, false, IfOk, map};
ghost use Rattle.dslx_meaning.specs.Inference.{inferred_for as number_for};
ghost use Rattle.dslx_meaning.specs.Items.{inferred_value, meanings_of};
ghost use Rattle.dslx_meaning.specs.Lists.{and_then};
ghost use Rattle.dslx_meaning.specs.Meaning.{value_of, written_type};
ghost use Rattle.dslx_meaning.specs.Operators.{number_value};
ghost use Rattle.dslx_values.specs.Inference.Inferences.{inferred};

use crate::values::{const_eval, type_eval};
use dslx_const_tasks::items::number_of;
use dslx_meaning::names::Scope;
use dslx_meaning::{DslxValue, UntypedLiteral};
use dslx_tree::{Module, Parametric, TypeExpr};
use dslx_values::inference::{Inference, inferred_for};
use std::alloc::{AllocError, Global};

/// The number that operands infer, or else the default of the parametric, where those before it are bound.
pub(crate) fn find_number<'a>(
    alloc: Global,
    text: &'a Module,
    bound: Scope<'a>,
    parametric: &'a Parametric,
    inferences: &[Inference],
) -> Result<Option<DslxValue>, AllocError>
    ensures { IfOk result (λ v. v ≡ inferred_value (record { items = meanings_of text.now; bound = bound.entry }) parametric.now (number_for parametric.now.name.name (map inferred inferences.now))) }
{
    match inferred_for(&parametric.name.name, inferences) {
        Some(number) => number_of_type(alloc, text, bound, &parametric.ty, number),
        None => find_default(alloc, text, bound, parametric),
    }
}

fn find_default<'a>(
    alloc: Global,
    text: &'a Module,
    bound: Scope<'a>,
    parametric: &'a Parametric,
) -> Result<Option<DslxValue>, AllocError>
    ensures { IfOk result (λ v. v ≡ and_then parametric.now.default (λ e. value_of e (record { items = meanings_of text.now; bound = bound.entry }))) }
{
    match &parametric.default {
        Some(expr) => const_eval(alloc, text, bound, expr),
        None => Ok(None),
    }
}

fn number_of_type<'a>(
    alloc: Global,
    text: &'a Module,
    bound: Scope<'a>,
    ty: &'a TypeExpr,
    number: u128,
) -> Result<Option<DslxValue>, AllocError>
    ensures { IfOk result (λ v. v ≡ and_then (written_type ty.now (record { items = meanings_of text.now; bound = bound.entry })) (λ t. number_value t (record { is_negative = false; value = number }))) }
{
    let number = UntypedLiteral {
        is_negative: false,
        value: number,
    };
    match type_eval(alloc, text, bound, ty)? {
        Some(ty) => number_of(&ty, number),
        None => Ok(None),
    }
}
