//! What a pattern binds of a value.

ghost use Rattle.std.specs.Prelude.{◌≡◌, ◌++◌, ◌∷◌, [], Bool, List, map, OnOk, Some};
ghost use Rattle.xb_value.specs.declared.ty.Ty.{Ty};
ghost use Rattle.xb_value.specs.declared.ty.Ty as types;
ghost use Rattle.ir_tree.specs.NodeValues.{operand_value};
ghost use Rattle.ir_rebuild.specs.Putting.Types.{ir_type_of};
ghost use Rattle.ir_rebuild.specs.Putting.Given.{IsBuilt, HasType, OperandsHaveTypes};
ghost use Rattle.dslx_core.specs.Types.Typing.{binds_types, binds_each, arm_binds};
ghost use Rattle.ir_lower_nodes.specs.Patterns.Shapes.{each_parts, parts_of, arm_parts, parts_in};
ghost use Rattle.ir_lower_nodes.specs.Patterns.Given.{AddsOperands, StandBehind};

use dslx_core::Shape;
use ir_rebuild::putting::Nodes;
use ir_tree::Operand;
use std::alloc::AllocError;

/// Puts the operands of what a pattern binds behind those that are bound.
#[cycle(bind)]
pub fn bind(
    nodes: &mut Nodes,
    shape: &Shape,
    a: Operand,
    slots: &mut Vec<Operand>,
) -> Result<(), AllocError>
    ensures kept { OnOk result (AddsOperands slots.old.items slots.new.items) }
    ensures binds { OnOk result ((certain : Bool) (t : Ty) (ts us : List Ty) → IsBuilt nodes.old → HasType nodes.old a (ir_type_of t) → OperandsHaveTypes nodes.old slots.old.items (map ir_type_of ts) → binds_types certain shape.now t ts ≡ Some us →
        StandBehind nodes.old nodes.new slots.old.items slots.new.items us (λ s values. parts_of shape.now (operand_value s values a))) }
{
    match shape {
        Shape::Wild | Shape::Equal(_) => Ok(()),
        Shape::Bound => bind_one(slots, a),
        Shape::Tuple(parts) => bind_each(nodes, parts.as_slice(), a, slots),
    }
}

fn bind_one(slots: &mut Vec<Operand>, a: Operand) -> Result<(), AllocError>
    ensures { OnOk result (slots.new.items ≡ slots.old.items ++ a ∷ []) }
{
    slots.push(a)?;
    Ok(())
}

/// The same for the parts of a tuple.
#[cycle(bind)]
fn bind_each(
    nodes: &mut Nodes,
    shapes: &[Shape],
    tuple: Operand,
    slots: &mut Vec<Operand>,
) -> Result<(), AllocError>
    ensures kept { OnOk result (AddsOperands slots.old.items slots.new.items) }
    ensures binds { OnOk result ((certain : Bool) (ss ts us : List Ty) → IsBuilt nodes.old → HasType nodes.old tuple (ir_type_of (types.Tuple ss)) → OperandsHaveTypes nodes.old slots.old.items (map ir_type_of ts) → binds_each (map (binds_types certain) shapes.now) ss ts ≡ Some us →
        StandBehind nodes.old nodes.new slots.old.items slots.new.items us (λ s values. each_parts (map parts_of shapes.now) (parts_in (operand_value s values tuple)))) }
{
    'shapes: for i in 0..shapes.len() {
        let part = nodes.element(tuple, i as u64)?;
        bind(nodes, &shapes[i], part, slots)?;
    }
    Ok(())
}

/// The same for an arm: only an arm with one pattern binds anything.
pub fn bind_arm(
    nodes: &mut Nodes,
    shapes: &[Shape],
    a: Operand,
    slots: &mut Vec<Operand>,
) -> Result<(), AllocError>
    ensures kept { OnOk result (AddsOperands slots.old.items slots.new.items) }
    ensures binds { OnOk result ((t : Ty) (ts us : List Ty) → IsBuilt nodes.old → HasType nodes.old a (ir_type_of t) → OperandsHaveTypes nodes.old slots.old.items (map ir_type_of ts) → arm_binds shapes.now t ts ≡ Some us →
        StandBehind nodes.old nodes.new slots.old.items slots.new.items us (λ s values. arm_parts shapes.now (operand_value s values a))) }
{
    match shapes {
        [only] => bind(nodes, only, a, slots),
        _ => Ok(()),
    }
}
