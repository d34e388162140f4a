//! Whether a value is another one, as a bit.

ghost use Rattle.std.specs.Prelude.{◌≡◌, List, map, [], length, IfOk, IsTrue};
ghost use Rattle.std.specs.List.{list_all};
ghost use Rattle.xb_value.specs.declared.ty.Ty.{Ty};
ghost use Rattle.xb_value.specs.declared.value.Value as values_of;
ghost use Rattle.xb_value.specs.Typing.{IsOfType, fits, each_passes};
ghost use Rattle.ir_tree.specs.declared.ir_type.IrType.{Tuple};
ghost use Rattle.ir_tree.specs.NodeValues.{operand_value};
ghost use Rattle.ir_rebuild.specs.Putting.Types.{array_of, ir_type_of};
ghost use Rattle.ir_rebuild.specs.Putting.Given.{IsBuilt, HasType};
ghost use Rattle.ir_rebuild.specs.Putting.Tests.{GivesTest};

use crate::putting::nodes::Nodes;
use delay_model::{Binary, Compare};
use ir_tree::Operand;
use std::alloc::AllocError;
use xb_value::Value;

/// Whether an operand has this value: a bit. Some nodes for each of its numbers.
#[cycle(equals)]
pub fn equals(nodes: &mut Nodes, wanted: &Value, a: Operand) -> Result<Operand, AllocError>
    ensures { IfOk result (λ o. (t : Ty) → IsBuilt nodes.old → HasType nodes.old a (ir_type_of t) → IsOfType t wanted.now →
        GivesTest nodes.old nodes.new o (λ s values. operand_value s values a ≡ wanted.now)) }
{
    match wanted {
        Value::Bits(bits) => {
            let number = nodes.number(u128::from(bits.width()), bits.value())?;
            nodes.compare(Compare::Eq, a, number)
        }
        Value::Tuple(parts) => equal_parts(nodes, parts.as_slice(), a),
        Value::Array(elements) => equal_elements(nodes, elements.as_slice(), a),
    }
}

/// Whether a tuple has these parts.
#[cycle(equals)]
fn equal_parts(nodes: &mut Nodes, wanted: &[Value], tuple: Operand) -> Result<Operand, AllocError>
    ensures { IfOk result (λ o. (ts : List Ty) → IsBuilt nodes.old → HasType nodes.old tuple (Tuple (map ir_type_of ts) []) → IsTrue (each_passes (map fits ts) wanted.now) →
        GivesTest nodes.old nodes.new o (λ s values. operand_value s values tuple ≡ values_of.Tuple wanted.now)) }
{
    let mut equal = nodes.number(1, 1)?;
    'parts: for i in 0..wanted.len() {
        let part = nodes.element(tuple, i as u64)?;
        let other = equals(nodes, &wanted[i], part)?;
        equal = nodes.binary(Binary::And, equal, other)?;
    }
    Ok(equal)
}

/// Whether an array has these elements.
#[cycle(equals)]
fn equal_elements(
    nodes: &mut Nodes,
    wanted: &[Value],
    array: Operand,
) -> Result<Operand, AllocError>
    ensures { IfOk result (λ o. (t : Ty) → IsBuilt nodes.old → HasType nodes.old array (array_of (length wanted.now) (ir_type_of t)) → IsTrue (list_all (fits t) wanted.now) →
        GivesTest nodes.old nodes.new o (λ s values. operand_value s values array ≡ values_of.Array wanted.now)) }
{
    let mut equal = nodes.number(1, 1)?;
    'elements: for i in 0..wanted.len() {
        let index = nodes.number(64, i as u128)?;
        let element = nodes.index(array, index)?;
        let other = equals(nodes, &wanted[i], element)?;
        equal = nodes.binary(Binary::And, equal, other)?;
    }
    Ok(equal)
}
