//! Copies of types, constants and names. They take time and memory as what is copied is large.

ghost use Rattle.std.specs.Prelude.{◌≡◌, IfOk};

use ir_tree::{Constant, IrType};
use net_core::Name;
use std::alloc::{AllocError, Global};
use xb_value::Seq;

/// The same numbers.
fn numbers_copy(alloc: Global, numbers: &[u128]) -> Result<Seq<u128>, AllocError>
    ensures { IfOk result (λ copy. copy ≡ numbers.now) }
{
    Seq::from_slice(alloc, numbers)
}

/// A copy of a type.
pub fn type_copy(alloc: Global, ty: &IrType) -> Result<IrType, AllocError>
    ensures { IfOk result (λ copy. copy ≡ ty.now) }
{
    match ty {
        IrType::Bits(width, sizes) => Ok(IrType::Bits(
            *width,
            numbers_copy(alloc, sizes.as_slice())?,
        )),
        IrType::Token(sizes) => Ok(IrType::Token(numbers_copy(alloc, sizes.as_slice())?)),
        IrType::Tuple(parts, sizes) => {
            let mut copies = Vec::new(alloc);
            'parts: for part in parts.as_slice() {
                copies.push(type_copy(alloc, part)?)?;
            }
            Ok(IrType::Tuple(
                Seq::from_vec(copies),
                numbers_copy(alloc, sizes.as_slice())?,
            ))
        }
    }
}

/// A copy of a constant.
#[cycle(constant_copy)]
pub fn constant_copy(alloc: Global, constant: &Constant) -> Result<Constant, AllocError>
    ensures { IfOk result (λ copy. copy ≡ constant.now) }
{
    match constant {
        Constant::Number(number) => Ok(Constant::Number(*number)),
        Constant::Tuple(parts) => Ok(Constant::Tuple(constants_copy(alloc, parts.as_slice())?)),
        Constant::Array(parts) => Ok(Constant::Array(constants_copy(alloc, parts.as_slice())?)),
    }
}

/// A copy of each.
#[cycle(constant_copy)]
fn constants_copy(alloc: Global, parts: &[Constant]) -> Result<Seq<Constant>, AllocError>
    ensures { IfOk result (λ copy. copy ≡ parts.now) }
{
    let mut copies = Vec::new(alloc);
    'parts: for part in parts {
        copies.push(constant_copy(alloc, part)?)?;
    }
    Ok(Seq::from_vec(copies))
}

/// A copy of a name.
pub fn name_copy(alloc: Global, name: &Name) -> Result<Name, AllocError>
    ensures { IfOk result (λ copy. copy ≡ name.now) }
{
    Ok(Name::from_string(String::from_str(alloc, name.as_str())?))
}
