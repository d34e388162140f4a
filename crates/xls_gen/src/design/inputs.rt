//! The words of a design's inputs.

ghost use Rattle.std.specs.Prelude.{◌≡◌, IfOk};
ghost use Rattle.xls_gen.specs.Design.Words.{design_words, words_below};

use net_core::Inputs;
use std::alloc::{AllocError, Global};
use xb_bits::Bits;
use xb_value::Seq;

/// The words for each channel of a design with so many procs: 64 for the outer input, and none for the others.
pub fn design_inputs(alloc: Global, procs: u32) -> Result<Inputs, AllocError>
    ensures { IfOk result (λ inputs. inputs.words ≡ design_words procs) }
{
    let mut words = Vec::new(alloc);
    words.push(Seq::from_vec(words_below(alloc, 64)?))?;
    'channels: for _made in 0..procs {
        words.push(Seq::new(alloc))?;
    }
    Ok(Inputs {
        words: Seq::from_vec(words),
    })
}

/// The numbers from 0 to below the count, as words of 32 bits.
fn words_below(alloc: Global, count: u32) -> Result<Vec<Bits>, AllocError>
    ensures { IfOk result (λ words. words.items ≡ words_below count) }
{
    let mut words = Vec::new(alloc);
    'words: for number in 0..count {
        words.push(Bits::new(32, u128::from(number)))?;
    }
    Ok(words)
}
