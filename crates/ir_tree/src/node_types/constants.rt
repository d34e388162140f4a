//! Which constants have a type.

ghost use Rattle.std.specs.Prelude.{◌≡◌, ◌^◌, min, map, nat_lt};
ghost use Rattle.std.specs.List.{list_all};
ghost use Rattle.ir_tree.specs.Types.{bounded, ty_of, arrays_of};
ghost use Rattle.ir_tree.specs.NodeTypes.Constants.{constant_fits, each_fits, base_of};
ghost use Rattle.ir_tree.specs.NodeTypes.Inner.Scaled.{own_fits};

use crate::node_types::types::{bounded, sizes_of};
use crate::{Constant, IrType};

/// Whether the constant writes a value of the type. It takes time as the constant is long.
#[tactic(auto, using(crate::proofs::Lemmas::NodeTypes::IrTypes::ty_of_split))]
pub fn constant_fits(constant: &Constant, ty: &IrType) -> bool
    ensures { result ≡ constant_fits (ty_of ty.now) constant.now }
{
    fits(constant, ty, sizes_of(ty))
}

/// Whether it writes a value of arrays of these sizes, of elements as inside the arrays of the type.
#[cycle(fits)]
fn fits(constant: &Constant, ty: &IrType, sizes: &[u128]) -> bool
    ensures { result ≡ constant_fits (arrays_of sizes.now (base_of ty.now)) constant.now }
{
    match sizes {
        [] => match constant {
            Constant::Number(number) => match ty {
                IrType::Bits(width, _) => number_fits(*width, *number),
                IrType::Token(_) => false,
                IrType::Tuple(_, _) => false,
            },
            Constant::Tuple(parts) => match ty {
                IrType::Bits(_, _) => false,
                IrType::Token(_) => parts.as_slice().is_empty(),
                IrType::Tuple(types, _) => each_fits(parts.as_slice(), types.as_slice()),
            },
            Constant::Array(_) => false,
        },
        [size, rest @ ..] => match constant {
            Constant::Number(_) => false,
            Constant::Tuple(_) => false,
            Constant::Array(parts) => {
                parts.len() as u64 == bounded(*size) && all_fit(parts.as_slice(), ty, rest)
            }
        },
    }
}

/// Whether a number fits so many bits.
fn number_fits(width: u128, number: u128) -> bool
    ensures { result ≡ nat_lt number (2 ^ min (bounded width) 128) }
{
    128 <= width || number < 1 << width
}

/// Whether each writes a value of the type.
#[cycle(fits)]
fn all_fit(parts: &[Constant], ty: &IrType, sizes: &[u128]) -> bool
    ensures { result ≡ list_all (constant_fits (arrays_of sizes.now (base_of ty.now))) parts.now }
{
    'parts: for part in parts {
        if !fits(part, ty, sizes) {
            return false;
        }
    }
    true
}

/// Whether there are as many as types, and each writes a value of its type.
#[cycle(fits)]
fn each_fits(parts: &[Constant], types: &[IrType]) -> bool
    ensures { result ≡ each_fits (map own_fits types.now) parts.now }
{
    if parts.len() != types.len() {
        return false;
    }
    'parts: for i in 0..parts.len() {
        if !fits(&parts[i], &types[i], sizes_of(&types[i])) {
            return false;
        }
    }
    true
}
