ghost use Rattle.std.specs.Prelude.{◌≡◌, ◌↔◌, IsTrue, IfOk};

use sqlite_items::Items as Seq;
use std::alloc::{AllocError, Global};
use xb_bits::Bits;

/// A value: bits, or a tuple or an array of values.
#[derive(Drop)]
pub enum Value {
    Bits(Bits),
    Tuple(Seq<Value>),
    Array(Seq<Value>),
}

impl Value {
    /// A copy. It takes time and memory as the value is large.
    #[cycle(value_copy)]
    pub fn copy(&self, alloc: Global) -> Result<Value, AllocError>
        ensures { IfOk result (λ v. v ≡ self.now) }
    {
        match self {
            Value::Bits(bits) => Ok(Value::Bits(*bits)),
            Value::Tuple(parts) => Ok(Value::Tuple(copies(parts.as_slice(), alloc)?)),
            Value::Array(parts) => Ok(Value::Array(copies(parts.as_slice(), alloc)?)),
        }
    }

    /// Whether the two are one value.
    #[cycle(value_is)]
    pub fn is(&self, other: &Value) -> bool
        ensures { IsTrue result ↔ (self.now ≡ other.now) }
    {
        match (self, other) {
            (Value::Bits(bits), Value::Bits(others)) => bits == others,
            (Value::Tuple(parts), Value::Tuple(others)) => are(parts.as_slice(), others.as_slice()),
            (Value::Array(parts), Value::Array(others)) => are(parts.as_slice(), others.as_slice()),
            _ => false,
        }
    }
}

/// A copy of each.
#[cycle(value_copy)]
fn copies(parts: &[Value], alloc: Global) -> Result<Seq<Value>, AllocError>
    ensures { IfOk result (λ vs. vs ≡ parts.now) }
{
    let mut copies = Vec::new(alloc);
    'parts: for part in parts {
        copies.push(part.copy(alloc)?)?;
    }
    Ok(Seq::from_vec(copies))
}

/// Whether the two lists have the same values.
#[cycle(value_is)]
fn are(parts: &[Value], others: &[Value]) -> bool
    ensures { IsTrue result ↔ (parts.now ≡ others.now) }
{
    if parts.len() != others.len() {
        return false;
    }
    'parts: for i in 0..parts.len() {
        if !parts[i].is(&others[i]) {
            return false;
        }
    }
    true
}
