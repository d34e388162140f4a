ghost use Rattle.std.specs.Prelude.{◌≡◌, ◌∷◌, [], IfOk, OnOk, MatchBool, Some, None, map, take, length};
ghost use Rattle.xb_value.specs.declared.value.Value.{Tuple as of_tuple};
ghost use Rattle.dslx_meaning.specs.Lists.{and_then, pairwise};
ghost use Rattle.dslx_core.specs.CoreValues.{is_like, taken_apart, apart_each, first_apart};
ghost use Rattle.dslx_interp.specs.Eval.Inner.Direct.{two_apart};

use dslx_core::Shape;
use std::alloc::{AllocError, Global};
use xb_value::{Seq, Value};

/// Whether the two are one value.
#[cycle(alike)]
pub fn alike(a: &Value, b: &Value) -> bool
    ensures { result ≡ is_like a.now b.now }
{
    match (a, b) {
        (Value::Bits(x), Value::Bits(y)) => x.width() == y.width() && x.value() == y.value(),
        (Value::Tuple(xs), Value::Tuple(ys)) => are_alike(xs.as_slice(), ys.as_slice()),
        (Value::Array(xs), Value::Array(ys)) => are_alike(xs.as_slice(), ys.as_slice()),
        _ => false,
    }
}

/// Whether the two lists have the same values.
#[cycle(alike)]
fn are_alike(a: &[Value], b: &[Value]) -> bool
    ensures { result ≡ pairwise (λ p v. p v) (map is_like a.now) b.now }
{
    if a.len() != b.len() {
        return false;
    }
    'parts: for i in 0..a.len() {
        if !alike(&a[i], &b[i]) {
            return false;
        }
    }
    true
}

/// Binds the parts of a value behind those that are bound, and says whether it fits. Where it doesn't, some may be bound.
#[cycle(apart)]
pub fn take_apart(
    alloc: Global,
    shape: &Shape,
    value: &Value,
    bound: &mut Vec<Value>,
) -> Result<bool, AllocError>
    ensures fits { IfOk result (λ fits. MatchBool fits
        (taken_apart shape.now value.now bound.old.items ≡ Some bound.new.items)
        (taken_apart shape.now value.now bound.old.items ≡ None)) }
    ensures front { OnOk result (take (length bound.old.items) bound.new.items ≡ bound.old.items) }
{
    match shape {
        Shape::Wild => Ok(true),
        Shape::Bound => {
            bound.push(value.copy(alloc)?)?;
            Ok(true)
        }
        Shape::Equal(wanted) => Ok(alike(wanted, value)),
        Shape::Tuple(shapes) => {
            let Value::Tuple(values) = value else {
                return Ok(false);
            };
            take_each(alloc, shapes.as_slice(), values.as_slice(), bound)
        }
    }
}

/// The same as [`take_apart`] of a value that nobody else needs: it isn't copied where it is bound as it is.
pub(crate) fn take_whole(
    alloc: Global,
    shape: &Shape,
    value: Value,
    bound: &mut Vec<Value>,
) -> Result<bool, AllocError>
    ensures fits { IfOk result (λ fits. MatchBool fits
        (taken_apart shape.now value bound.old.items ≡ Some bound.new.items)
        (taken_apart shape.now value bound.old.items ≡ None)) }
    ensures front { OnOk result (take (length bound.old.items) bound.new.items ≡ bound.old.items) }
{
    match shape {
        Shape::Bound => {
            bound.push(value)?;
            Ok(true)
        }
        _ => take_apart(alloc, shape, &value, bound),
    }
}

/// The same of a pair, which is made only where the shape takes it as it is.
pub(crate) fn take_pair(
    alloc: Global,
    shape: &Shape,
    first: Value,
    second: Value,
    bound: &mut Vec<Value>,
) -> Result<bool, AllocError>
    ensures { IfOk result (λ fits. MatchBool fits
        (taken_apart shape.now (of_tuple (first ∷ second ∷ [])) bound.old.items ≡ Some bound.new.items)
        (taken_apart shape.now (of_tuple (first ∷ second ∷ [])) bound.old.items ≡ None)) }
{
    match shape {
        Shape::Tuple(shapes) => take_parts(alloc, shapes.as_slice(), first, second, bound),
        _ => take_made(alloc, shape, first, second, bound),
    }
}

/// The same of a pair that is made.
fn take_made(
    alloc: Global,
    shape: &Shape,
    first: Value,
    second: Value,
    bound: &mut Vec<Value>,
) -> Result<bool, AllocError>
    ensures { IfOk result (λ fits. MatchBool fits
        (taken_apart shape.now (of_tuple (first ∷ second ∷ [])) bound.old.items ≡ Some bound.new.items)
        (taken_apart shape.now (of_tuple (first ∷ second ∷ [])) bound.old.items ≡ None)) }
{
    let mut parts = Vec::new(alloc);
    parts.push(first)?;
    parts.push(second)?;
    take_whole(alloc, shape, Value::Tuple(Seq::from_vec(parts)), bound)
}

/// The same of two values by these shapes, one each.
fn take_parts(
    alloc: Global,
    shapes: &[Shape],
    first: Value,
    second: Value,
    bound: &mut Vec<Value>,
) -> Result<bool, AllocError>
    ensures { IfOk result (λ fits. MatchBool fits
        (apart_each (map taken_apart shapes.now) (first ∷ second ∷ []) bound.old.items ≡ Some bound.new.items)
        (apart_each (map taken_apart shapes.now) (first ∷ second ∷ []) bound.old.items ≡ None)) }
{
    take_two(alloc, shapes, first, second, bound)
}

fn take_two(
    alloc: Global,
    shapes: &[Shape],
    first: Value,
    second: Value,
    bound: &mut Vec<Value>,
) -> Result<bool, AllocError>
    ensures { IfOk result (λ fits. MatchBool fits
        (two_apart shapes.now first second bound.old.items ≡ Some bound.new.items) (two_apart shapes.now first second bound.old.items ≡ None)) }
{
    match shapes {
        [one, other] => take_in_turn(alloc, one, first, other, second, bound),
        _ => Ok(false),
    }
}

fn take_in_turn(
    alloc: Global,
    one: &Shape,
    first: Value,
    other: &Shape,
    second: Value,
    bound: &mut Vec<Value>,
) -> Result<bool, AllocError>
    ensures { IfOk result (λ fits. MatchBool fits
        (and_then (taken_apart one.now first bound.old.items) (taken_apart other.now second) ≡ Some bound.new.items)
        (and_then (taken_apart one.now first bound.old.items) (taken_apart other.now second) ≡ None)) }
{
    if take_whole(alloc, one, first, bound)? {
        take_whole(alloc, other, second, bound)
    } else {
        Ok(false)
    }
}

/// The same of each value by its own shape.
#[cycle(apart)]
fn take_each(
    alloc: Global,
    shapes: &[Shape],
    values: &[Value],
    bound: &mut Vec<Value>,
) -> Result<bool, AllocError>
    ensures fits { IfOk result (λ fits. MatchBool fits
        (apart_each (map taken_apart shapes.now) values.now bound.old.items ≡ Some bound.new.items)
        (apart_each (map taken_apart shapes.now) values.now bound.old.items ≡ None)) }
    ensures front { OnOk result (take (length bound.old.items) bound.new.items ≡ bound.old.items) }
{
    if shapes.len() != values.len() {
        return Ok(false);
    }
    'parts: for i in 0..shapes.len() {
        if !take_apart(alloc, &shapes[i], &values[i], bound)? {
            return Ok(false);
        }
    }
    Ok(true)
}

/// Binds the parts of a value behind those that are bound, by the first of these shapes that it fits, and says whether there
/// is one. Where there is none, nothing more is bound.
pub fn take_first(
    alloc: Global,
    shapes: &[Shape],
    value: &Value,
    bound: &mut Vec<Value>,
) -> Result<bool, AllocError>
    ensures fits { IfOk result (λ fits. MatchBool fits
        (first_apart shapes.now value.now bound.old.items ≡ Some bound.new.items)
        ((first_apart shapes.now value.now bound.old.items ≡ None) × (bound.new.items ≡ bound.old.items))) }
    ensures front { OnOk result (take (length bound.old.items) bound.new.items ≡ bound.old.items) }
{
    let count = bound.len();
    'shapes: for shape in shapes {
        if take_apart(alloc, shape, value, bound)? {
            return Ok(true);
        }
        bound.truncate(count);
    }
    Ok(false)
}
