//! What a name or a number stands for in a scope.

ghost use Rattle.std.specs.Prelude.{◌≡◌, ℕ, IfOk};
ghost use Rattle.dslx_meaning.specs.Environment.{given_in};
ghost use Rattle.dslx_meaning.specs.Lists.{and_then, or_else};
ghost use Rattle.dslx_core.specs.Lowering.Trees.{lower_type_of_text};
ghost use Rattle.dslx_core.specs.Machines.Machine.Callees.{CalleesByName};
ghost use Rattle.dslx_core.specs.Machines.Machine.Steps.{number_at};
ghost use Rattle.dslx_scope_names.specs.Values.Seen.{scope_seen, scope_with};

use crate::names::named::value_named;
use crate::values::{ScopeEnv, bind_parametric_args, type_there};
use base::texts::Name;
use dslx_const_tasks::items::number_of;
use dslx_meaning::{DslxType, DslxValue, UntypedLiteral};
use dslx_tree::{Number, TypeExpr};
use std::alloc::{AllocError, Global};
use xb_value::Boxed;

/// The value of a name that isn't bound there: that of a parametric, or else a constant's, which is evaluated anew.
pub fn name_there<'a>(
    alloc: Global,
    context: ScopeEnv<'a>,
    name: &Name,
) -> Result<Option<DslxValue>, AllocError>
    ensures { IfOk result (λ v. v ≡ or_else (given_in name.now (scope_seen context.entry).known.parametric_args) ((scope_seen context.entry).known.items.constant name.now)) }
{
    let bound = bind_parametric_args(alloc, context.parametric_args)?;
    value_named(alloc, context.text, bound, name)
}

/// The value of a number that has a type, whatever calls are lowered to there and however many values are bound.
pub fn number_there<'a>(
    alloc: Global,
    context: ScopeEnv<'a>,
    number: &'a Number,
) -> Result<Option<DslxValue>, AllocError>
    ensures { IfOk result (λ v. (callee : CalleesByName) (count : ℕ) → v ≡ number_at (scope_with callee count context.entry) number.now) }
{
    match type_of_number(alloc, context, &number.ty)? {
        Some(ty) => number_of(
            &ty,
            UntypedLiteral {
                is_negative: number.is_negative,
                value: number.value,
            },
        ),
        None => Ok(None),
    }
}

/// The type of a number, if one is written.
fn type_of_number<'a>(
    alloc: Global,
    context: ScopeEnv<'a>,
    ty: &'a Option<Boxed<TypeExpr>>,
) -> Result<Option<DslxType>, AllocError>
    ensures { IfOk result (λ t. (callee : CalleesByName) (count : ℕ) → t ≡ and_then ty.now (λ t. lower_type_of_text t (scope_with callee count context.entry))) }
{
    match ty {
        Some(ty) => type_there(alloc, context, ty.get()),
        None => Ok(None),
    }
}
