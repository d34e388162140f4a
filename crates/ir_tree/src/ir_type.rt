ghost use Rattle.std.specs.Prelude.{◌≡◌, IfOk};
ghost use Rattle.ir_tree.specs.Types.{bounded, arrays_of, ty_of};

use std::alloc::{AllocError, Global};
use xb_value::{Boxed, Seq, Ty};

/// A type as a text writes it. The sizes are those of the arrays around it, the outermost first: `bits[8][3][4]`, an array of
/// four arrays of three, has the sizes 4 and 3.
///
/// It may be any tree, also one with a width or a size that no value has. Sizes are not nested, so that a walk over a type
/// goes as deep as its tuples alone.
#[derive(Drop)]
pub enum IrType {
    Bits(u128, Seq<u128>),
    Token(Seq<u128>),
    Tuple(Seq<IrType>, Seq<u128>),
}

impl IrType {
    /// The type of its values, where a token is `()`. Widths and sizes past 2^64 - 1, which no value has, count as that.
    pub fn to_ty(&self, alloc: Global) -> Result<Ty, AllocError>
        ensures { IfOk result (λ t. t ≡ ty_of self.now) }
    {
        match self {
            IrType::Bits(width, sizes) => {
                arrays_of(alloc, sizes.as_slice(), Ty::Bits(bounded(*width)))
            }
            IrType::Token(sizes) => {
                arrays_of(alloc, sizes.as_slice(), Ty::Tuple(Seq::new(alloc)))
            }
            IrType::Tuple(parts, sizes) => {
                let mut types = Vec::new(alloc);
                'parts: for part in parts.as_slice() {
                    types.push(part.to_ty(alloc)?)?;
                }
                arrays_of(alloc, sizes.as_slice(), Ty::Tuple(Seq::from_vec(types)))
            }
        }
    }
}

/// The number, at most 2^64 - 1.
fn bounded(number: u128) -> u64
    ensures { result ≡ bounded number }
{
    number.min(u128::from(u64::MAX)) as u64
}

/// Arrays of these sizes, the outermost first.
fn arrays_of(alloc: Global, sizes: &[u128], element: Ty) -> Result<Ty, AllocError>
    ensures { IfOk result (λ t. t ≡ arrays_of sizes.now element) }
{
    let mut ty = element;
    'sizes: for i in 0..sizes.len() {
        let size = sizes[sizes.len() - 1 - i];
        ty = Ty::Array(Boxed::new(alloc, ty)?, bounded(size));
    }
    Ok(ty)
}
