//! Parametrics with their values.

ghost use Rattle.std.specs.Prelude.{◌≡◌, [], IfOk, map, reverse};
ghost use Rattle.dslx_meaning.specs.Items.{parametric_args_bound};
ghost use Rattle.dslx_meaning.specs.Names.Bound.{given};

use dslx_meaning::DslxValue;
use dslx_meaning::names::{Binding, Scope};
use dslx_tree::Parametric;
use dslx_values::copy_value;
use std::alloc::{AllocError, Global};

/// The parametrics with copies of their values, as many as there are of both.
pub fn bindings_of<'a>(
    alloc: Global,
    parametrics: &'a [Parametric],
    parametric_args: &[DslxValue],
) -> Result<Vec<Binding<'a>>, AllocError>
    ensures { IfOk result (λ bound. reverse (map given bound.items) ≡ parametric_args_bound [] parametrics.now parametric_args.now) }
{
    let mut bound = Vec::new(alloc);
    'parametrics: for i in 0..parametrics.len().min(parametric_args.len()) {
        bound.push(Binding {
            name: &parametrics[i].name.name,
            value: copy_value(alloc, &parametric_args[i])?,
        })?;
    }
    Ok(bound)
}

/// The scope where these alone are bound.
pub fn scope_of<'a>(
    alloc: Global,
    parametrics: &'a [Parametric],
    parametric_args: &[DslxValue],
) -> Result<Scope<'a>, AllocError>
    ensures { IfOk result (λ bound. bound ≡ parametric_args_bound [] parametrics.now parametric_args.now) }
{
    let mut bound = Scope::new(alloc);
    'parametrics: for i in 0..parametrics.len().min(parametric_args.len()) {
        bound.bind(Binding {
            name: &parametrics[i].name.name,
            value: copy_value(alloc, &parametric_args[i])?,
        })?;
    }
    Ok(bound)
}
