//! What names and numbers are lowered to.

ghost use Rattle.std.specs.Prelude.{◌≡◌, List, Some, IfOk};
ghost use Rattle.dslx_core.specs.declared.expr.CoreExpr.{Slot as slot_of};
ghost use Rattle.dslx_meaning.specs.Lists.{and_then};
ghost use Rattle.dslx_core.specs.Lowering.Functions.{CoreInstance};
ghost use Rattle.dslx_core.specs.Lowering.Lowering.{literal as the_literal, lowered, lower_name};
ghost use Rattle.dslx_core.specs.Machines.Machine.Bodies.{scope_in};
ghost use Rattle.dslx_core.specs.Machines.Machine.Steps.{number_at};
ghost use Rattle.dslx_instance.specs.Tasks.Shown.{body_shown, instance_env_of};

use crate::names::{name_there, number_there};
use crate::scopes::context::scope_env_in;
use base::texts::Name;
use dslx_core::CoreExpr;
use dslx_core::lowering::{BoundSlot, LoweredExpr};
use dslx_core_exprs::types::literal;
use dslx_instance::tasks::OpenBody;
use dslx_meaning::DslxValue;
use dslx_tree::{Module, Number};
use dslx_values::copy_type;
use std::alloc::{AllocError, Global};
use xb_value::Boxed;

/// The value that a bound name stands for.
pub fn lower_slot(alloc: Global, local: &BoundSlot) -> Result<LoweredExpr, AllocError>
    ensures { IfOk result (λ e. Some e ≡ lowered (slot_of local.now.slot) local.now.ty) }
{
    Ok(LoweredExpr {
        core: Boxed::new(alloc, CoreExpr::Slot(local.slot))?,
        ty: copy_type(alloc, &local.ty)?,
    })
}

/// A value as a literal, if there is one.
pub fn literal_if(
    alloc: Global,
    value: Option<DslxValue>,
) -> Result<Option<LoweredExpr>, AllocError>
    ensures { IfOk result (λ e. e ≡ and_then value the_literal) }
{
    match value {
        Some(value) => Ok(Some(literal(alloc, &value)?)),
        None => Ok(None),
    }
}

/// A bound value, a parametric or a constant.
pub fn name_in_body<'b, 'a: 'b>(
    alloc: Global,
    text: &'b Module,
    body: &'b OpenBody<'a>,
    name: &'b Name,
) -> Result<Option<LoweredExpr>, AllocError>
    ensures { IfOk result (λ e. (table : List CoreInstance) → e ≡ lower_name name.now (scope_in (instance_env_of text.now table) (body_shown body.now))) }
{
    match body.locals.get(name) {
        Some(local) => Ok(Some(lower_slot(alloc, local)?)),
        None => {
            let value = name_there(alloc, scope_env_in(text, body), name)?;
            literal_if(alloc, value)
        }
    }
}

/// A number of a type that is written.
pub fn number_in_body<'b, 'a: 'b>(
    alloc: Global,
    text: &'b Module,
    body: &'b OpenBody<'a>,
    number: &'b Number,
) -> Result<Option<LoweredExpr>, AllocError>
    ensures { IfOk result (λ e. (table : List CoreInstance) → e ≡ and_then (number_at (scope_in (instance_env_of text.now table) (body_shown body.now)) number.now) the_literal) }
{
    let value = number_there(alloc, scope_env_in(text, body), number)?;
    literal_if(alloc, value)
}
