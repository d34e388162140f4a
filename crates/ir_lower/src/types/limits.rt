//! Which types nodes may have.

ghost use Rattle.std.specs.Prelude.{◌≡◌, Some, true, IfOk, IsTrue};
ghost use Rattle.ir_rebuild.specs.Putting.Types.{ir_type_of};
ghost use Rattle.ir_lower_nodes.specs.Exprs.NodeTypes.{if_node, is_node_type};
ghost use Rattle.ir_lower.specs.Types.Limits.{widths_within};

use crate::types::stop::Stop;
use ir_rebuild::putting::ir_type;
use ir_tree::IrType;
use ir_tree::node_types::{bounded, leaves_of, levels_of, marks_of};
use std::alloc::{AllocError, Global};
use xb_value::Ty;

/// The type, if a node may have it: it is sound, and within the limits.
pub fn within(alloc: Global, ty: Ty) -> Result<Ty, Stop>
    ensures { IfOk result (λ t. if_node (Some ty) ≡ Some t) }
{
    if may_be(alloc, &ty)? {
        Ok(ty)
    } else {
        Err(Stop::Untyped)
    }
}

/// Whether a node may have the type.
fn may_be(alloc: Global, ty: &Ty) -> Result<bool, AllocError>
    ensures { IfOk result (λ b. IsTrue b → is_node_type (ir_type_of ty.now) ≡ true) }
{
    let ty = ir_type(alloc, ty)?;
    Ok(is_node_type(&ty))
}

fn is_node_type(ty: &IrType) -> bool
    ensures { IsTrue result → is_node_type ty.now ≡ true }
{
    marks_of(ty).sound && widths_within(ty) && leaves_of(ty) <= 256 && levels_of(ty) <= 64
}

/// Whether no `bits` in the type is too wide.
fn widths_within(ty: &IrType) -> bool
    ensures { IsTrue result → widths_within ty.now ≡ true }
{
    match ty {
        IrType::Bits(width, _) => bounded(*width) <= 128,
        IrType::Token(_) => true,
        IrType::Tuple(parts, _) => {
            'parts: for part in parts.as_slice() {
                if !widths_within(part) {
                    return false;
                }
            }
            true
        }
    }
}
