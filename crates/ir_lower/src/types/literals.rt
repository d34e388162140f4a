//! The types of values that are written out.

ghost use Rattle.std.specs.Prelude.{◌≡◌, ◌∷◌, Some, IfOk, IsTrue, map};
ghost use Rattle.dslx_core.specs.Types.Typing.{all_alike, elements_alike, value_type};
ghost use Rattle.ir_lower_nodes.specs.Exprs.NodeTypes.{if_node};

use crate::types::limits::within;
use crate::types::stop::Stop;
use std::alloc::Global;
use xb_value::{Boxed, Seq, Ty, Value};

/// The type of a value as an expression.
pub(crate) fn literal(alloc: Global, value: &Value) -> Result<Ty, Stop>
    ensures { IfOk result (λ t. if_node (value_type value.now) ≡ Some t) }
{
    let ty = value_type(alloc, value)?;
    within(alloc, ty)
}

/// The type of a value.
#[cycle(value_type)]
pub(crate) fn value_type(alloc: Global, value: &Value) -> Result<Ty, Stop>
    ensures { IfOk result (λ t. value_type value.now ≡ Some t) }
{
    match value {
        Value::Bits(bits) => Ok(Ty::Bits(u64::from(bits.width()))),
        Value::Tuple(parts) => tuple_value_type(alloc, parts.as_slice()),
        Value::Array(elements) => array_value_type(alloc, elements.as_slice()),
    }
}

#[cycle(value_type)]
fn tuple_value_type(alloc: Global, values: &[Value]) -> Result<Ty, Stop>
    ensures { IfOk result (λ t. value_type (Value.Tuple values.now) ≡ Some t) }
{
    let types = value_types(alloc, values)?;
    Ok(Ty::Tuple(Seq::from_vec(types)))
}

#[cycle(value_type)]
fn array_value_type(alloc: Global, values: &[Value]) -> Result<Ty, Stop>
    ensures { IfOk result (λ t. value_type (Value.Array values.now) ≡ Some t) }
{
    let types = value_types(alloc, values)?;
    array_type(alloc, types.as_slice())
}

/// The type of each value.
#[cycle(value_type)]
fn value_types(alloc: Global, values: &[Value]) -> Result<Vec<Ty>, Stop>
    ensures { IfOk result (λ ts. map value_type values.now ≡ map Some ts.items) }
{
    let mut types = Vec::new(alloc);
    'values: for value in values {
        types.push(value_type(alloc, value)?)?;
    }
    Ok(types)
}

/// The type of an array of elements of these types, which are one.
pub(crate) fn array_type(alloc: Global, types: &[Ty]) -> Result<Ty, Stop>
    ensures { IfOk result (λ t. elements_alike (map Some types.now) ≡ Some t) }
{
    match types {
        [] => Err(Stop::Untyped),
        [first, rest @ ..] => array_of(alloc, first, rest),
    }
}

/// The same, of a first element and others.
fn array_of(alloc: Global, first: &Ty, rest: &[Ty]) -> Result<Ty, Stop>
    ensures { IfOk result (λ t. elements_alike (Some first.now ∷ map Some rest.now) ≡ Some t) }
{
    if !all_alike(first, rest) {
        return Err(Stop::Untyped);
    }
    let count = rest.len() as u64 + 1;
    Ok(Ty::Array(Boxed::new(alloc, first.copy(alloc)?)?, count))
}

/// Whether each of the others is the first one.
fn all_alike(first: &Ty, rest: &[Ty]) -> bool
    ensures { IsTrue result → all_alike first.now (map Some rest.now) ≡ Some first.now }
{
    'rest: for ty in rest {
        if !first.is(ty) {
            return false;
        }
    }
    true
}
