//! The values that constants write.

ghost use Rattle.std.specs.Prelude.{◌≡◌, IfOk, map};
ghost use Rattle.ir_tree.specs.Constants.{number_value, constant_value, each_read};

use std::alloc::{AllocError, Global};
use xb_bits::Bits;
use xb_value::{Seq, Ty, Value};

/// A value as a text writes it: its numbers, without their widths.
#[derive(Drop)]
pub enum Constant {
    Number(u128),
    Tuple(Seq<Constant>),
    Array(Seq<Constant>),
}

impl Constant {
    /// The value of the type that it writes. Where it isn't one of the type, that part of it is `()`.
    #[cycle(constant)]
    pub fn to_value(&self, alloc: Global, ty: &Ty) -> Result<Value, AllocError>
        ensures { IfOk result (λ v. v ≡ constant_value ty.now self.now) }
    {
        match (ty, self) {
            (Ty::Bits(width), Constant::Number(number)) => Ok(bits(alloc, *width, *number)),
            (Ty::Tuple(types), Constant::Tuple(parts)) => {
                each_value(alloc, parts.as_slice(), types.as_slice())
            }
            (Ty::Array(element, _), Constant::Array(parts)) => {
                all_values(alloc, parts.as_slice(), element.get())
            }
            _ => Ok(Value::Tuple(Seq::new(alloc))),
        }
    }
}

/// The number of so many bits, where there is one.
fn bits(alloc: Global, width: u64, number: u128) -> Value
    ensures { result ≡ number_value width number }
{
    if width < 1 || 128 < width {
        return Value::Tuple(Seq::new(alloc));
    }
    let width = width as u8;
    if width < 128 && (1 << width) <= number {
        return Value::Tuple(Seq::new(alloc));
    }
    Value::Bits(Bits::new(width, number))
}

/// A tuple of the values of as many constants as there are types.
#[cycle(constant)]
fn each_value(alloc: Global, parts: &[Constant], types: &[Ty]) -> Result<Value, AllocError>
    ensures { IfOk result (λ v. v ≡ Value.Tuple (each_read (map constant_value types.now) parts.now)) }
{
    let mut values = Vec::new(alloc);
    let count = types.len().min(parts.len());
    'types: for i in 0..count {
        values.push(parts[i].to_value(alloc, &types[i])?)?;
    }
    Ok(Value::Tuple(Seq::from_vec(values)))
}

/// An array of the values of the constants.
#[cycle(constant)]
fn all_values(alloc: Global, parts: &[Constant], ty: &Ty) -> Result<Value, AllocError>
    ensures { IfOk result (λ v. v ≡ Value.Array (map (constant_value ty.now) parts.now)) }
{
    let mut values = Vec::new(alloc);
    'parts: for part in parts {
        values.push(part.to_value(alloc, ty)?)?;
    }
    Ok(Value::Array(Seq::from_vec(values)))
}
