//! Written types where nothing is bound but parametrics.

ghost use Rattle.std.specs.Prelude.{◌≡◌, [], IfOk};
ghost use Rattle.dslx_core.specs.Machines.Machine.Callees.{CalleesByName};
ghost use Rattle.dslx_core.specs.Lowering.Trees.{lower_type_of_text};
ghost use Rattle.dslx_scope_names.specs.Patterns.Behind.{body_scope};

use dslx_meaning::DslxType;
use dslx_scope::locals::Locals;
use dslx_scope_names::patterns::BodyScope;
use dslx_scope_names::values::{ScopeEnv, type_there};
use dslx_tree::TypeExpr;
use std::alloc::{AllocError, Global};

/// What a written type is lowered to where nothing is bound but parametrics.
pub fn outer_type<'a>(
    alloc: Global,
    known: BodyScope<'a>,
    ty: &'a TypeExpr,
) -> Result<Option<DslxType>, AllocError>
    ensures { IfOk result (λ t. (callee : CalleesByName) → t ≡ lower_type_of_text ty.now (body_scope callee known.entry [] 0)) }
{
    let locals = Locals::new(alloc);
    let context = ScopeEnv {
        text: known.text,
        parametric_args: known.parametric_args,
        locals: &locals,
    };
    type_there(alloc, context, ty)
}
