//! Whether a value fits a pattern: a bit.

ghost use Rattle.std.specs.Prelude.{◌≡◌, [], List, false, map, IfOk, Some};
ghost use Rattle.xb_value.specs.declared.ty.Ty.{Ty};
ghost use Rattle.xb_value.specs.declared.ty.Ty as types;
ghost use Rattle.ir_tree.specs.declared.ir_type.IrType.{Bits};
ghost use Rattle.ir_tree.specs.NodeValues.{operand_value};
ghost use Rattle.ir_rebuild.specs.Putting.Types.{ir_type_of};
ghost use Rattle.ir_rebuild.specs.Putting.Given.{IsBuilt, HasType, GivesValue};
ghost use Rattle.dslx_core.specs.Types.Typing.{binds_types, binds_each};
ghost use Rattle.ir_lower_nodes.specs.Patterns.Shapes.{each_fit, fits_shape, any_fit, parts_in};
ghost use Rattle.ir_lower_nodes.specs.Patterns.Given.{AreCompared, bit_by};

use delay_model::Binary;
use dslx_core::Shape;
use ir_rebuild::putting::{Nodes, equals};
use ir_tree::Operand;
use std::alloc::AllocError;

/// Whether the value of an operand fits a pattern.
#[cycle(fits)]
pub fn fits(nodes: &mut Nodes, shape: &Shape, a: Operand) -> Result<Operand, AllocError>
    ensures { IfOk result (λ o. (t : Ty) (ts us : List Ty) → IsBuilt nodes.old → HasType nodes.old a (ir_type_of t) → binds_types false shape.now t ts ≡ Some us →
        GivesValue nodes.old nodes.new o (Bits 1 []) (bit_by (λ s values. fits_shape shape.now (operand_value s values a)))) }
{
    match shape {
        Shape::Wild | Shape::Bound => nodes.number(1, 1),
        Shape::Equal(value) => equals(nodes, value, a),
        Shape::Tuple(parts) => fits_each(nodes, parts.as_slice(), a),
    }
}

/// Whether the parts of a tuple fit these patterns.
#[cycle(fits)]
fn fits_each(nodes: &mut Nodes, shapes: &[Shape], tuple: Operand) -> Result<Operand, AllocError>
    ensures { IfOk result (λ o. (ss ts us : List Ty) → IsBuilt nodes.old → HasType nodes.old tuple (ir_type_of (types.Tuple ss)) → binds_each (map (binds_types false) shapes.now) ss ts ≡ Some us →
        GivesValue nodes.old nodes.new o (Bits 1 []) (bit_by (λ s values. each_fit (map fits_shape shapes.now) (parts_in (operand_value s values tuple))))) }
{
    let mut fit = nodes.number(1, 1)?;
    'shapes: for i in 0..shapes.len() {
        let part = nodes.element(tuple, i as u64)?;
        let one = fits(nodes, &shapes[i], part)?;
        fit = nodes.binary(Binary::And, fit, one)?;
    }
    Ok(fit)
}

/// Whether the value of an operand fits one of several patterns.
pub fn fits_any(nodes: &mut Nodes, shapes: &[Shape], a: Operand) -> Result<Operand, AllocError>
    ensures { IfOk result (λ o. (t : Ty) → IsBuilt nodes.old → HasType nodes.old a (ir_type_of t) → AreCompared shapes.now t →
        GivesValue nodes.old nodes.new o (Bits 1 []) (bit_by (λ s values. any_fit shapes.now (operand_value s values a)))) }
{
    match shapes {
        [only] => fits(nodes, only, a),
        _ => fits_several(nodes, shapes, a),
    }
}

/// The same, beginning with a bit that is 0.
fn fits_several(nodes: &mut Nodes, shapes: &[Shape], a: Operand) -> Result<Operand, AllocError>
    ensures { IfOk result (λ o. (t : Ty) → IsBuilt nodes.old → HasType nodes.old a (ir_type_of t) → AreCompared shapes.now t →
        GivesValue nodes.old nodes.new o (Bits 1 []) (bit_by (λ s values. any_fit shapes.now (operand_value s values a)))) }
{
    let mut fit = nodes.number(1, 0)?;
    'shapes: for i in 0..shapes.len() {
        let one = fits(nodes, &shapes[i], a)?;
        fit = nodes.binary(Binary::Or, fit, one)?;
    }
    Ok(fit)
}
