//! Whether each value of a small type fits some arm of a match.

ghost use Rattle.std.specs.Prelude.{◌≡◌, ◌≤◌, ◌^◌, [], map, true, IfOk, IsTrue, MatchBool};
ghost use Rattle.xb_value.specs.Width.{HasAllWidths, HasWidths, width_of};
ghost use Rattle.dslx_core.specs.Types.Typing.{all_fit, each_fits, is_fit, some_fits, shapes_of};
ghost use Rattle.dslx_core.specs.CoreValues.{first_apart};
ghost use Rattle.ir_lower_nodes.specs.Exprs.NodeTypes.{arm_node_type};

use dslx_core::{Arm, Shape};
use dslx_interp::operate::take_first;
use std::alloc::{AllocError, Global};
use xb_bits::Bits;
use xb_value::{Ty, Value, unflat};

/// Whether the type has at most 8 bits, and each value of it is known to fit some arm.
pub(crate) fn all_fit(alloc: Global, arms: &[Arm], ty: &Ty) -> Result<bool, AllocError>
    ensures { IfOk result (λ fit. MatchBool fit (all_fit (shapes_of (map arm_node_type arms.now)) ty.now ≡ true) (Unit {0})) }
{
    let width = ty.width();
    if 1 <= width && width <= 8 && has_widths(ty) {
        each_fits(alloc, arms, ty, width as u8)
    } else {
        Ok(false)
    }
}

/// Whether each `bits` in the type is 1 to 128 wide.
#[cycle(widths)]
fn has_widths(ty: &Ty) -> bool
    ensures { IsTrue result → HasWidths ty.now }
{
    match ty {
        Ty::Bits(width) => 1 <= *width && *width <= 128,
        Ty::Tuple(parts) => have_widths(parts.as_slice()),
        Ty::Array(element, _) => has_widths(element.get()),
    }
}

/// Whether each `bits` in the types is.
#[cycle(widths)]
fn have_widths(types: &[Ty]) -> bool
    ensures { IsTrue result → HasAllWidths types.now }
{
    'types: for ty in types {
        if !has_widths(ty) {
            return false;
        }
    }
    true
}

/// Whether each value of a type of so many bits fits some arm.
fn each_fits(alloc: Global, arms: &[Arm], ty: &Ty, width: u8) -> Result<bool, AllocError>
    requires some { 1 ≤ width }
    requires most { width ≤ 8 }
    requires is_width { width_of ty.now ≡ width }
    requires widths { HasWidths ty.now }
    ensures { IfOk result (λ fit. MatchBool fit (each_fits (shapes_of (map arm_node_type arms.now)) ty.now (2 ^ width) ≡ true) (Unit {0})) }
{
    let count = 1u128 << width;
    'values: for number in 0..count {
        let value = unflat(alloc, ty, Bits::new(width, number))?;
        if !some_fits(alloc, arms, &value)? {
            return Ok(false);
        }
    }
    Ok(true)
}

/// Whether a value fits some arm.
fn some_fits(alloc: Global, arms: &[Arm], value: &Value) -> Result<bool, AllocError>
    ensures { IfOk result (λ fit. MatchBool fit (some_fits (shapes_of (map arm_node_type arms.now)) value.now ≡ true) (Unit {0})) }
{
    'arms: for arm in arms {
        if fits(alloc, arm.shapes.as_slice(), value)? {
            return Ok(true);
        }
    }
    Ok(false)
}

/// Whether a value fits one of these patterns.
fn fits(alloc: Global, shapes: &[Shape], value: &Value) -> Result<bool, AllocError>
    ensures { IfOk result (λ fit. MatchBool fit (is_fit (first_apart shapes.now value.now []) ≡ true) (Unit {0})) }
{
    let mut bound = Vec::new(alloc);
    take_first(alloc, shapes, value, &mut bound)
}
