//! Whether something sees a name that is bound.

ghost use Rattle.std.specs.Prelude.{◌≡◌, ℕ, List, IfOk, map};
ghost use Rattle.std.specs.List.{list_any};
ghost use Rattle.dslx_meaning.specs.Lists.{is_in};
ghost use Rattle.dslx_core.specs.Lowering.CoreScopes.{sees_a_local, slot_names};
ghost use Rattle.dslx_scope_names.specs.Values.Seen.{scope_seen};
ghost use Rattle.dslx_scope.specs.WrittenTypes.Seen.{type_sees_a_local};

use crate::values::context::ScopeEnv;
use base::texts::Name;
use dslx_scope::free_names::{names_free_in, names_free_in_type};
use dslx_scope::locals::Locals;
use dslx_tree::{Expr, TypeExpr};
use std::alloc::{AllocError, Global};

/// Whether a name that is free in the expression is bound there.
pub(crate) fn sees_local<'a>(
    alloc: Global,
    context: ScopeEnv<'a>,
    expr: &'a Expr,
) -> Result<bool, AllocError>
    ensures { IfOk result (λ sees. sees ≡ sees_a_local (scope_seen context.entry) expr.now) }
{
    let names = names_free_in(alloc, expr)?;
    Ok(is_any_local(context.locals, names.as_slice()))
}

/// Whether a name that is free in the type is bound there.
pub(crate) fn type_sees_local<'a>(
    alloc: Global,
    context: ScopeEnv<'a>,
    ty: &'a TypeExpr,
) -> Result<bool, AllocError>
    ensures { IfOk result (λ sees. sees ≡ type_sees_a_local (scope_seen context.entry) ty.now) }
{
    let names = names_free_in_type(alloc, ty)?;
    Ok(is_any_local(context.locals, names.as_slice()))
}

/// Whether one of the names is bound.
fn is_any_local(locals: &Locals, names: &[&Name]) -> bool
    ensures { result ≡ list_any (λ name. is_in name (slot_names locals.now)) (map {B = List ℕ} (λ name. name.now) names.now) }
{
    'names: for name in names {
        if locals.has(name) {
            return true;
        }
    }
    false
}
