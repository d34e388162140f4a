ghost use Rattle.std.specs.Prelude.{◌≡◌, IfOk, map, reverse};
ghost use Rattle.dslx_meaning.specs.Names.Bound.{given};

use dslx_meaning::names::{Binding, Scope};
use dslx_scope::locals::Locals;
use dslx_tree::Module;
use dslx_values::copy_value;
use std::alloc::{AllocError, Global};

/// A scope: a text, the parametrics, the last one last, and the names that are bound in it.
#[derive(Clone, Copy)]
pub struct ScopeEnv<'a> {
    pub text: &'a Module,
    pub parametric_args: &'a [Binding<'a>],
    pub locals: &'a Locals,
}

/// The parametrics with copies of their values.
pub fn bind_parametric_args<'a>(
    alloc: Global,
    parametric_args: &'a [Binding<'a>],
) -> Result<Scope<'a>, AllocError>
    ensures { IfOk result (λ bound. bound ≡ reverse (map given parametric_args.now)) }
{
    let mut bound = Scope::new(alloc);
    'parametric_args: for number in parametric_args {
        bound.bind(Binding {
            name: number.name,
            value: copy_value(alloc, &number.value)?,
        })?;
    }
    Ok(bound)
}
