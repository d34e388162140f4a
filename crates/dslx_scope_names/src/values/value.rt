ghost use Rattle.std.specs.Prelude.{◌≡◌, ℕ, IfOk};
ghost use Rattle.dslx_core.specs.Lowering.CoreScopes.{bound_at, constant_at, size_at};
ghost use Rattle.dslx_core.specs.Lowering.Trees.{lower_type_of_text};
ghost use Rattle.dslx_core.specs.Machines.Machine.Callees.{CalleesByName};
ghost use Rattle.dslx_scope_names.specs.Values.Seen.{scope_seen, scope_with};

use crate::values::context::{ScopeEnv, bind_parametric_args};
use crate::values::local::{sees_local, type_sees_local};
use dslx_const::{bound_eval, const_eval, size_eval, type_eval};
use dslx_meaning::{DslxType, DslxValue};
use dslx_tree::{Expr, TypeExpr};
use std::alloc::{AllocError, Global};

/// The value of a constant.
pub fn constant_there<'a>(
    alloc: Global,
    context: ScopeEnv<'a>,
    expr: &'a Expr,
) -> Result<Option<DslxValue>, AllocError>
    ensures { IfOk result (λ v. v ≡ constant_at (scope_seen context.entry) expr.now) }
{
    if sees_local(alloc, context, expr)? {
        return Ok(None);
    }
    const_eval(
        alloc,
        context.text,
        bind_parametric_args(alloc, context.parametric_args)?,
        expr,
    )
}

/// A size, as of an array or the width of a type.
pub fn size_there<'a>(
    alloc: Global,
    context: ScopeEnv<'a>,
    size: &'a Expr,
) -> Result<Option<u128>, AllocError>
    ensures { IfOk result (λ n. n ≡ size_at (scope_seen context.entry) size.now) }
{
    if sees_local(alloc, context, size)? {
        return Ok(None);
    }
    size_eval(
        alloc,
        context.text,
        bind_parametric_args(alloc, context.parametric_args)?,
        size,
    )
}

/// A bound of a slice.
pub fn bound_there<'a>(
    alloc: Global,
    context: ScopeEnv<'a>,
    end: &'a Expr,
) -> Result<Option<u128>, AllocError>
    ensures { IfOk result (λ n. n ≡ bound_at (scope_seen context.entry) end.now) }
{
    if sees_local(alloc, context, end)? {
        return Ok(None);
    }
    bound_eval(
        alloc,
        context.text,
        bind_parametric_args(alloc, context.parametric_args)?,
        end,
    )
}

/// What a written type is lowered to, whatever calls are lowered to there and however many values are bound.
pub fn type_there<'a>(
    alloc: Global,
    context: ScopeEnv<'a>,
    ty: &'a TypeExpr,
) -> Result<Option<DslxType>, AllocError>
    ensures { IfOk result (λ t. (callee : CalleesByName) (count : ℕ) → t ≡ lower_type_of_text ty.now (scope_with callee count context.entry)) }
{
    dslx_scope::written_types::lower_total_written_types();
    if type_sees_local(alloc, context, ty)? {
        return Ok(None);
    }
    type_eval(
        alloc,
        context.text,
        bind_parametric_args(alloc, context.parametric_args)?,
        ty,
    )
}
