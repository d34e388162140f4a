//! Words that were received, and the values that they say.

ghost use Rattle.std.specs.Prelude.{◌≡◌, slice_get, IfOk, IsTrue};
ghost use Rattle.xb_value.specs.Unflat.{unflat_of};
ghost use Rattle.dslx_core.specs.Lowering.Steps.{fits_word};

use std::alloc::{AllocError, Global};
use xb_bits::{Bits, slice};
use xb_value::{Ty, Value, unflat};

/// The word of this index, where there is one.
pub(crate) fn word_at(words: &[Bits], index: usize) -> Option<Bits>
    ensures { result ≡ slice_get words.now index }
{
    match words.get(index) {
        Some(word) => Some(*word),
        None => None,
    }
}

/// The value of the type that the low bits of a word hold.
pub(crate) fn word_value(alloc: Global, ty: &Ty, word: Bits) -> Result<Value, AllocError>
    requires { IsTrue (fits_word ty.now) }
    ensures { IfOk result (λ v. v ≡ unflat_of ty.now word.value) }
{
    let width = ty.width() as u8;
    let number = Bits::new(128, word.value());
    unflat(alloc, ty, slice(number, 0, width))
}
