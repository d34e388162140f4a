//! The types of what patterns bind.

ghost use Rattle.std.specs.Prelude.{◌≡◌, ◌++◌, ◌∷◌, [], true, false, map, IfOk, OnOk, MatchBool};
ghost use Rattle.dslx_core.specs.Types.Typing.{arm_binds, binds_each, binds_types, each_binds_none, if_alike, is_certain, is_some, value_type};
ghost use Rattle.ir_lower.specs.Types.Bound.{AddsTypes};

use crate::types::literals::value_type;
use crate::types::stop::Stop;
use dslx_core::Shape;
use std::alloc::Global;
use xb_value::{Ty, Value};

/// Puts the types of what a pattern binds of a value behind those that are bound, and says whether values of the type may be taken apart
/// by it: all of them where it is to be certain. Where they may not, some may be bound.
#[cycle(bind)]
pub(crate) fn bind(
    alloc: Global,
    certain: bool,
    shape: &Shape,
    ty: &Ty,
    bound: &mut Vec<Ty>,
) -> Result<bool, Stop>
    ensures kept { IfOk result (λ fits. AddsTypes bound.old.items bound.new.items) }
    ensures binds { IfOk result (λ fits. MatchBool fits (binds_types certain shape.now ty.now bound.old.items ≡ Some bound.new.items) (Unit {0})) }
{
    match shape {
        Shape::Wild => Ok(true),
        Shape::Bound => bind_one(alloc, ty, bound),
        Shape::Equal(value) => may_equal(alloc, certain, value, ty),
        Shape::Tuple(shapes) => bind_parts(alloc, certain, shapes.as_slice(), ty, bound),
    }
}

fn bind_one(alloc: Global, ty: &Ty, bound: &mut Vec<Ty>) -> Result<bool, Stop>
    ensures { IfOk result (λ fits. bound.new.items ≡ bound.old.items ++ ty.now ∷ []) }
{
    bound.push(ty.copy(alloc)?)?;
    Ok(true)
}

/// Whether values of the type may be compared with this one. A pattern that is certain compares with none.
fn may_equal(alloc: Global, certain: bool, value: &Value, ty: &Ty) -> Result<bool, Stop>
    ensures { IfOk result (λ fits. MatchBool fits ((certain ≡ false) × (if_alike ty.now (value_type value.now) ≡ Some ty.now)) (Unit {0})) }
{
    let own = value_type(alloc, value)?;
    if certain { Ok(false) } else { Ok(ty.is(&own)) }
}

/// The same for the parts of a tuple.
#[cycle(bind)]
fn bind_parts(
    alloc: Global,
    certain: bool,
    shapes: &[Shape],
    ty: &Ty,
    bound: &mut Vec<Ty>,
) -> Result<bool, Stop>
    ensures kept { IfOk result (λ fits. AddsTypes bound.old.items bound.new.items) }
    ensures binds { IfOk result (λ fits. MatchBool fits (binds_types certain (Shape.Tuple shapes.now) ty.now bound.old.items ≡ Some bound.new.items) (Unit {0})) }
{
    match ty {
        Ty::Tuple(types) => bind_each(alloc, certain, shapes, types.as_slice(), bound),
        _ => Ok(false),
    }
}

/// The same for each pattern and its own type.
#[cycle(bind)]
fn bind_each(
    alloc: Global,
    certain: bool,
    shapes: &[Shape],
    types: &[Ty],
    bound: &mut Vec<Ty>,
) -> Result<bool, Stop>
    ensures kept { IfOk result (λ fits. AddsTypes bound.old.items bound.new.items) }
    ensures binds { IfOk result (λ fits. MatchBool fits (binds_each (map (binds_types certain) shapes.now) types.now bound.old.items ≡ Some bound.new.items) (Unit {0})) }
{
    if shapes.len() != types.len() {
        return Ok(false);
    }
    'shapes: for i in 0..shapes.len() {
        if !bind(alloc, certain, &shapes[i], &types[i], bound)? {
            return Ok(false);
        }
    }
    Ok(true)
}

/// The same where each value has to fit.
pub(crate) fn bind_all(
    alloc: Global,
    shape: &Shape,
    ty: &Ty,
    bound: &mut Vec<Ty>,
) -> Result<(), Stop>
    ensures kept { OnOk result (AddsTypes bound.old.items bound.new.items) }
    ensures binds { OnOk result (binds_types true shape.now ty.now bound.old.items ≡ Some bound.new.items) }
{
    if bind(alloc, true, shape, ty, bound)? {
        Ok(())
    } else {
        Err(Stop::Untyped)
    }
}

/// The same for an arm: one with several patterns binds nothing.
pub(crate) fn bind_arm(
    alloc: Global,
    shapes: &[Shape],
    ty: &Ty,
    bound: &mut Vec<Ty>,
) -> Result<(), Stop>
    ensures kept { OnOk result (AddsTypes bound.old.items bound.new.items) }
    ensures binds { OnOk result (arm_binds shapes.now ty.now bound.old.items ≡ Some bound.new.items) }
{
    match shapes {
        [] => Ok(()),
        [only] => bind_some(alloc, only, ty, bound),
        [_, _, ..] => bind_none(alloc, shapes, ty, bound),
    }
}

/// The same where a value may fit or not.
fn bind_some(alloc: Global, shape: &Shape, ty: &Ty, bound: &mut Vec<Ty>) -> Result<(), Stop>
    ensures kept { OnOk result (AddsTypes bound.old.items bound.new.items) }
    ensures binds { OnOk result (binds_types false shape.now ty.now bound.old.items ≡ Some bound.new.items) }
{
    if bind(alloc, false, shape, ty, bound)? {
        Ok(())
    } else {
        Err(Stop::Untyped)
    }
}

/// None of these patterns binds anything.
fn bind_none(alloc: Global, shapes: &[Shape], ty: &Ty, bound: &mut Vec<Ty>) -> Result<(), Stop>
    ensures kept { OnOk result (bound.new.items ≡ bound.old.items) }
    ensures none { OnOk result (each_binds_none shapes.now ty.now bound.old.items ≡ true) }
{
    'shapes: for shape in shapes {
        bind_nothing(alloc, shape, ty, bound)?;
    }
    Ok(())
}

/// This pattern binds nothing.
fn bind_nothing(alloc: Global, shape: &Shape, ty: &Ty, bound: &mut Vec<Ty>) -> Result<(), Stop>
    ensures kept { OnOk result (bound.new.items ≡ bound.old.items) }
    ensures none { OnOk result (binds_types false shape.now ty.now bound.old.items ≡ Some bound.old.items) }
{
    let count = bound.len();
    bind_some(alloc, shape, ty, bound)?;
    if bound.len() == count {
        Ok(())
    } else {
        Err(Stop::Untyped)
    }
}

/// Whether each value of the type fits one of these patterns alone. What is bound stays.
pub(crate) fn is_certain(
    alloc: Global,
    shapes: &[Shape],
    ty: &Ty,
    bound: &mut Vec<Ty>,
) -> Result<bool, Stop>
    ensures kept { IfOk result (λ certain. bound.new.items ≡ bound.old.items) }
    ensures certain { IfOk result (λ certain. MatchBool certain (is_certain shapes.now ty.now bound.old.items ≡ true) (Unit {0})) }
{
    'shapes: for shape in shapes {
        if fits_all(alloc, shape, ty, bound)? {
            return Ok(true);
        }
    }
    Ok(false)
}

/// Whether each value of the type fits the pattern. What is bound stays.
fn fits_all(alloc: Global, shape: &Shape, ty: &Ty, bound: &mut Vec<Ty>) -> Result<bool, Stop>
    ensures kept { IfOk result (λ fits. bound.new.items ≡ bound.old.items) }
    ensures fits { IfOk result (λ fits. MatchBool fits (is_some (binds_types true shape.now ty.now bound.old.items) ≡ true) (Unit {0})) }
{
    let count = bound.len();
    let fits = bind(alloc, true, shape, ty, bound)?;
    bound.truncate(count);
    Ok(fits)
}
