//! Values that are written out.

ghost use Rattle.std.specs.Prelude.{◌≡◌, map, IfOk, Some};
ghost use Rattle.xb_value.specs.declared.ty.Ty.{Ty};
ghost use Rattle.ir_rebuild.specs.Putting.Types.{ir_type_of};
ghost use Rattle.ir_rebuild.specs.Putting.Given.{IsBuilt, IsNodeType};
ghost use Rattle.dslx_core.specs.Types.Typing.{value_type};
ghost use Rattle.ir_lower_nodes.specs.Words.Given.{LoweredTo};
ghost use Rattle.ir_lower_nodes.specs.Words.Literals.{own_type, array_of_first, written};

use ir_rebuild::putting::{Nodes, ir_type};
use ir_tree::{Constant, Operand};
use std::alloc::{AllocError, Global};
use xb_value::{Boxed, Seq, Ty, Value};

/// A value that is written out, if its type is within the limits: one node.
pub fn literal(alloc: Global, nodes: &mut Nodes, value: &Value) -> Result<Operand, AllocError>
    ensures { IfOk result (λ o. (t : Ty) → IsBuilt nodes.old → value_type value.now ≡ Some t → IsNodeType (ir_type_of t) →
        LoweredTo nodes.old nodes.new o t (λ s values. Some value.now)) }
{
    let ty = own_type(alloc, value)?;
    let ty = ir_type(alloc, &ty)?;
    let constant = written(alloc, value)?;
    nodes.literal(ty, constant)
}

/// The type of a value, whose elements have one type.
#[cycle(own_type)]
fn own_type(alloc: Global, value: &Value) -> Result<Ty, AllocError>
    ensures { IfOk result (λ t. t ≡ own_type value.now) }
{
    match value {
        Value::Bits(bits) => Ok(Ty::Bits(u64::from(bits.width()))),
        Value::Tuple(parts) => Ok(Ty::Tuple(own_types(alloc, parts.as_slice())?)),
        Value::Array(elements) => array_type(alloc, elements.as_slice()),
    }
}

/// The type of each.
#[cycle(own_type)]
fn own_types(alloc: Global, values: &[Value]) -> Result<Seq<Ty>, AllocError>
    ensures { IfOk result (λ ts. ts ≡ map own_type values.now) }
{
    let mut types = Vec::new(alloc);
    'values: for value in values {
        types.push(own_type(alloc, value)?)?;
    }
    Ok(Seq::from_vec(types))
}

/// An array of as many values, each of the type of the first one.
#[cycle(own_type)]
fn array_type(alloc: Global, values: &[Value]) -> Result<Ty, AllocError>
    ensures { IfOk result (λ t. t ≡ array_of_first (map own_type values.now)) }
{
    let element = match values {
        [] => Ty::Tuple(Seq::new(alloc)),
        [first, ..] => own_type(alloc, first)?,
    };
    Ok(Ty::Array(Boxed::new(alloc, element)?, values.len() as u64))
}

/// The value as a text writes it: its numbers.
#[cycle(written)]
fn written(alloc: Global, value: &Value) -> Result<Constant, AllocError>
    ensures { IfOk result (λ c. c ≡ written value.now) }
{
    match value {
        Value::Bits(bits) => Ok(Constant::Number(bits.value())),
        Value::Tuple(parts) => Ok(Constant::Tuple(all_written(alloc, parts.as_slice())?)),
        Value::Array(elements) => Ok(Constant::Array(all_written(alloc, elements.as_slice())?)),
    }
}

/// Each of them.
#[cycle(written)]
fn all_written(alloc: Global, values: &[Value]) -> Result<Seq<Constant>, AllocError>
    ensures { IfOk result (λ cs. cs ≡ map written values.now) }
{
    let mut constants = Vec::new(alloc);
    'values: for value in values {
        constants.push(written(alloc, value)?)?;
    }
    Ok(Seq::from_vec(constants))
}
