//! Parametrics that come into scope.

ghost use Rattle.std.specs.Prelude.{OnOk};
ghost use Rattle.std.specs.Option.{option_copied};
ghost use Rattle.dslx_check_facts.specs.Walks.{shown};
ghost use Rattle.dslx_check_declarations.specs.Scopes.{BindsIf, BindsValue};

use crate::value_types::value_type;
use dslx_check_facts::{Facts, ParametricArg, TypeEnv, Walk};
use dslx_meaning::DslxValue;
use dslx_tree::Parametric;
use dslx_values::copy_value;
use std::alloc::AllocError;

/// A parametric has this value from here on, if there is one.
pub fn bind_if<'a>(
    f: &Facts,
    w: &mut Walk,
    s: &mut TypeEnv<'a>,
    parametric: &'a Parametric,
    value: Option<&DslxValue>,
) -> Result<(), AllocError>
    ensures { OnOk result (BindsIf f.now s.old s.new (shown w.old) (shown w.new) parametric.now (option_copied value.entry)) }
{
    match value {
        None => Ok(()),
        Some(value) => bind_value(f, w, s, parametric, value),
    }
}

/// A parametric has this value from here on.
pub(crate) fn bind_value<'a>(
    f: &Facts,
    w: &mut Walk,
    s: &mut TypeEnv<'a>,
    parametric: &'a Parametric,
    value: &DslxValue,
) -> Result<(), AllocError>
    ensures { OnOk result (BindsValue f.now s.old s.new (shown w.old) (shown w.new) parametric.now value.now) }
{
    let ty = value_type(f, &mut w.types, value)?;
    let value = copy_value(f.alloc, value)?;
    let arg = ParametricArg { value, ty };
    s.parametric_args.bind(&parametric.name.name, arg)?;
    Ok(())
}
