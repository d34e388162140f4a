//! Constants and written types where a body stands.

ghost use Rattle.std.specs.Prelude.{◌≡◌, List, IfOk, map};
ghost use Rattle.std.specs.Option.{option_map};
ghost use Rattle.dslx_meaning.specs.Lists.{all_some};
ghost use Rattle.dslx_core.specs.Lowering.CoreScopes.{bound_at, constant_at};
ghost use Rattle.dslx_core.specs.Lowering.Functions.{CoreInstance};
ghost use Rattle.dslx_core.specs.Lowering.Trees.{lower_type_of_text};
ghost use Rattle.dslx_core.specs.Machines.Machine.Bodies.{scope_in};
ghost use Rattle.dslx_core.specs.Machines.Machine.Parts.{parametric_args_at};
ghost use Rattle.dslx_instance.specs.Tasks.Shown.{body_shown, instance_env_of};

use crate::names::{bound_there, constant_there, type_there};
use crate::scopes::context::scope_env_in;
use dslx_instance::tasks::OpenBody;
use dslx_meaning::{DslxType, DslxValue};
use dslx_tree::{Arg, Expr, Module, TypeExpr};
use std::alloc::{AllocError, Global};

/// The value of a constant.
pub fn constant_in_body<'b, 'a: 'b>(
    alloc: Global,
    text: &'b Module,
    body: &'b OpenBody<'a>,
    expr: &'b Expr,
) -> Result<Option<DslxValue>, AllocError>
    ensures { IfOk result (λ v. (table : List CoreInstance) → v ≡ constant_at (scope_in (instance_env_of text.now table) (body_shown body.now)) expr.now) }
{
    constant_there(alloc, scope_env_in(text, body), expr)
}

/// The values of constants, if all have one.
pub fn constants_in_body<'b, 'a: 'b>(
    alloc: Global,
    text: &'b Module,
    body: &'b OpenBody<'a>,
    exprs: &'b [Arg],
) -> Result<Option<Vec<DslxValue>>, AllocError>
    ensures { IfOk result (λ vs. (table : List CoreInstance) → all_some (parametric_args_at (scope_in (instance_env_of text.now table) (body_shown body.now)) exprs.now) ≡ option_map (λ v. v.items) vs) }
{
    let mut values = Vec::new(alloc);
    'exprs: for expr in exprs {
        match constant_in_body(alloc, text, body, &expr.value)? {
            Some(value) => values.push(value)?,
            None => return Ok(None),
        }
    }
    Ok(Some(values))
}

/// A bound of a slice.
pub fn bound_in_body<'b, 'a: 'b>(
    alloc: Global,
    text: &'b Module,
    body: &'b OpenBody<'a>,
    end: &'b Expr,
) -> Result<Option<u128>, AllocError>
    ensures { IfOk result (λ n. (table : List CoreInstance) → n ≡ bound_at (scope_in (instance_env_of text.now table) (body_shown body.now)) end.now) }
{
    bound_there(alloc, scope_env_in(text, body), end)
}

/// A written type.
pub fn type_in_body<'b, 'a: 'b>(
    alloc: Global,
    text: &'b Module,
    body: &'b OpenBody<'a>,
    ty: &'b TypeExpr,
) -> Result<Option<DslxType>, AllocError>
    ensures { IfOk result (λ t. (table : List CoreInstance) → t ≡ lower_type_of_text ty.now (scope_in (instance_env_of text.now table) (body_shown body.now))) }
{
    type_there(alloc, scope_env_in(text, body), ty)
}
