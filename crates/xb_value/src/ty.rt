ghost use Rattle.std.specs.Prelude.{◌≡◌, ◌↔◌, ◌-◌, ◌^◌, IsTrue, IfOk, min};
ghost use Rattle.xb_value.specs.Width.{width_of, leaf_count};

use sqlite_items::{Boxed, Items as Seq};
use std::alloc::{AllocError, Global};

/// What values there are: bits of a width, tuples, and arrays of a count of elements.
///
/// A `Ty` may be any tree, also one with a width or a size that no value has. The types of a program are those whose
/// bits are 1 to 128 wide.
#[derive(Drop)]
pub enum Ty {
    Bits(u64),
    Tuple(Seq<Ty>),
    Array(Boxed<Ty>, u64),
}

impl Ty {
    /// A copy. It takes time and memory as the type is large.
    pub fn copy(&self, alloc: Global) -> Result<Ty, AllocError>
        ensures { IfOk result (λ t. t ≡ self.now) }
    {
        match self {
            Ty::Bits(width) => Ok(Ty::Bits(*width)),
            Ty::Tuple(parts) => {
                let mut copies = Vec::new(alloc);
                'parts: for part in parts.as_slice() {
                    copies.push(part.copy(alloc)?)?;
                }
                Ok(Ty::Tuple(Seq::from_vec(copies)))
            }
            Ty::Array(part, count) => Ok(Ty::Array(
                Boxed::new(alloc, part.get().copy(alloc)?)?,
                *count,
            )),
        }
    }

    /// Whether the two are one type.
    #[cycle(ty_is)]
    pub fn is(&self, other: &Ty) -> bool
        ensures { IsTrue result ↔ (self.now ≡ other.now) }
    {
        match (self, other) {
            (Ty::Bits(width), Ty::Bits(others)) => width == others,
            (Ty::Tuple(parts), Ty::Tuple(others)) => are(parts.as_slice(), others.as_slice()),
            (Ty::Array(part, count), Ty::Array(others, others_count)) => count == others_count
                && part.get().is(others.get()),
            _ => false,
        }
    }

    /// How many bits a value of the type has in a flat word, or `2^64 - 1` where they are more.
    pub fn width(&self) -> u64
        ensures { result ≡ min (width_of self.now) (2 ^ 64 - 1) }
    {
        match self {
            Ty::Bits(width) => *width,
            Ty::Tuple(parts) => {
                let mut width = 0u64;
                'parts: for part in parts.as_slice() {
                    width = width.saturating_add(part.width());
                }
                width
            }
            Ty::Array(part, count) => part.get().width().saturating_mul(*count),
        }
    }
}

/// How many bit types the type has, arrays multiplied out, or `2^64 - 1` where they are more.
pub fn leaves(ty: &Ty) -> u64
    ensures { result ≡ min (leaf_count ty.now) (2 ^ 64 - 1) }
{
    match ty {
        Ty::Bits(_) => 1,
        Ty::Tuple(parts) => {
            let mut total = 0u64;
            'parts: for part in parts.as_slice() {
                total = total.saturating_add(leaves(part));
            }
            total
        }
        Ty::Array(part, count) => leaves(part.get()).saturating_mul(*count),
    }
}

/// Whether the two lists have the same types.
#[cycle(ty_is)]
fn are(parts: &[Ty], others: &[Ty]) -> bool
    ensures { IsTrue result ↔ (parts.now ≡ others.now) }
{
    if parts.len() != others.len() {
        return false;
    }
    'parts: for i in 0..parts.len() {
        if !parts[i].is(&others[i]) {
            return false;
        }
    }
    true
}
