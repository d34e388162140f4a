//! Patterns whose names are bound in a body.

ghost use Rattle.std.specs.Prelude.{◌≡◌, IfOk};
ghost use Rattle.dslx_core.specs.Machines.Machine.Arms.{shaped_at};
ghost use Rattle.dslx_core.specs.Machines.Machine.Callees.{CalleesByName};
ghost use Rattle.dslx_core.specs.Machines.Machine.Steps.{turn_shaped};
ghost use Rattle.dslx_scope_names.specs.Patterns.Behind.{body_scope, shown_bound, shown_turn};

use crate::names::ScopeEnv;
use crate::patterns::there::shape_there;
use dslx_core::Shape;
use dslx_meaning::DslxType;
use dslx_meaning::names::Binding;
use dslx_scope::locals::Locals;
use dslx_tree::{For, Module, Pattern};
use std::alloc::{AllocError, Global};

/// What is in scope in all of a body: a text, and the parametrics, the last one last.
#[derive(Clone, Copy)]
pub struct BodyScope<'a> {
    pub text: &'a Module,
    pub parametric_args: &'a [Binding<'a>],
}

/// A shape, and how many values are bound behind it.
#[derive(Drop)]
pub struct BoundShape {
    pub shape: Shape,
    pub count: u64,
}

/// What the index of a loop and what it accumulates bind in each turn, and how many values are bound behind them.
#[derive(Drop)]
pub struct BoundTurn {
    pub index: Shape,
    pub accumulator: Shape,
    pub count: u64,
}

/// What a pattern is lowered to where so many values are bound, if anything; its names are bound then.
pub fn bind_there<'a>(
    alloc: Global,
    known: BodyScope<'a>,
    locals: &mut Locals,
    count: u64,
    pattern: &'a Pattern,
    ty: &DslxType,
) -> Result<Option<BoundShape>, AllocError>
    ensures { IfOk result (λ o. (callee : CalleesByName) → shaped_at pattern.now (body_scope callee known.entry locals.old count) ty.now ≡ shown_bound o callee known.entry locals.new) }
{
    let context = ScopeEnv {
        text: known.text,
        parametric_args: known.parametric_args,
        locals,
    };
    match shape_there(alloc, context, count, pattern, ty)? {
        Some(shaped) => {
            locals.bind_all(shaped.fresh)?;
            Ok(Some(BoundShape {
                shape: shaped.shape,
                count: shaped.count,
            }))
        }
        None => Ok(None),
    }
}

/// What the patterns of a turn are lowered to against an index and what is accumulated, one behind the other; their names are bound then.
pub fn turn_there<'a>(
    alloc: Global,
    known: BodyScope<'a>,
    locals: &mut Locals,
    count: u64,
    turns: &'a For,
    index: &DslxType,
    accumulator: &DslxType,
) -> Result<Option<BoundTurn>, AllocError>
    ensures { IfOk result (λ o. (callee : CalleesByName) → turn_shaped (body_scope callee known.entry locals.old count) turns.now index.now accumulator.now ≡ shown_turn o callee known.entry locals.new) }
{
    let Some(index) = bind_there(alloc, known, locals, count, &turns.index, index)? else {
        return Ok(None);
    };
    match bind_there(
        alloc,
        known,
        locals,
        index.count,
        &turns.accumulator,
        accumulator,
    )? {
        Some(bound) => Ok(Some(BoundTurn {
            index: index.shape,
            accumulator: bound.shape,
            count: bound.count,
        })),
        None => Ok(None),
    }
}
