//! Alternatives.

ghost use Rattle.std.specs.Prelude.{◌≡◌, map, IfOk};
ghost use Rattle.dslx_core.specs.Lowering.Patterns.{alternatives_shaped};
ghost use Rattle.dslx_core.specs.Lowering.Steps.{lower_pattern_of_text};
ghost use Rattle.dslx_core.specs.Machines.Machine.Callees.{CalleesByName};
ghost use Rattle.dslx_scope_names.specs.Names.Seen.{scope_with};

use crate::names::ScopeEnv;
use crate::patterns::there::shape_there;
use dslx_core::Shape;
use dslx_meaning::DslxType;
use dslx_tree::Pattern;
use std::alloc::{AllocError, Global};
use xb_value::Seq;

/// What the alternatives of an arm are lowered to, each in the same scope, if all have a lowering.
pub fn alternatives_there<'a>(
    alloc: Global,
    context: ScopeEnv<'a>,
    count: u64,
    patterns: &'a [Pattern],
    ty: &DslxType,
) -> Result<Option<Seq<Shape>>, AllocError>
    ensures { IfOk result (λ o. (callee : CalleesByName) → o ≡ alternatives_shaped (map lower_pattern_of_text patterns.now) (scope_with callee count context.entry) ty.now) }
{
    let mut shapes = Vec::new(alloc);
    'patterns: for pattern in patterns {
        match shape_there(alloc, context, count, pattern, ty)? {
            Some(shaped) => shapes.push(shaped.shape)?,
            None => return Ok(None),
        }
    }
    Ok(Some(Seq::from_vec(shapes)))
}
