//! What a pattern is lowered to in a scope.

ghost use Rattle.std.specs.Prelude.{◌≡◌, IfOk};
ghost use Rattle.dslx_core.specs.Machines.Machine.Arms.{shaped_at};
ghost use Rattle.dslx_core.specs.Machines.Machine.Callees.{CalleesByName};
ghost use Rattle.dslx_scope_names.specs.Names.Seen.{scope_with};
ghost use Rattle.dslx_scope_names.specs.Patterns.Behind.{shown_behind};

use crate::names::ScopeEnv;
use crate::patterns::fresh::{Fresh, Outer};
use crate::patterns::shape::pattern_shape;
use dslx_core::Shape;
use dslx_meaning::DslxType;
use dslx_scope::locals::Locals;
use dslx_tree::Pattern;
use std::alloc::{AllocError, Global};

/// A shape, the names that it binds, and how many values are bound behind it.
#[derive(Drop)]
pub struct Shaped {
    pub shape: Shape,
    pub fresh: Locals,
    pub count: u64,
}

/// What a pattern is lowered to against values of the type where so many values are bound, if anything, whatever calls resolve to there.
///
/// A constant is evaluated in the scope at its name, a number in that of the whole pattern.
pub fn shape_there<'a>(
    alloc: Global,
    context: ScopeEnv<'a>,
    count: u64,
    pattern: &'a Pattern,
    ty: &DslxType,
) -> Result<Option<Shaped>, AllocError>
    ensures { IfOk result (λ o. (callee : CalleesByName) → shaped_at pattern.now (scope_with callee count context.entry) ty.now ≡ shown_behind o (scope_with callee count context.entry)) }
{
    dslx_core::machines::machine::types_and_patterns_know_no_calls();
    let mut fresh = Fresh::new(alloc, count);
    match pattern_shape(alloc, Outer { context, count }, pattern, ty, &mut fresh)? {
        Some(shape) => Ok(Some(Shaped {
            shape,
            fresh: fresh.names,
            count: fresh.count,
        })),
        None => Ok(None),
    }
}
