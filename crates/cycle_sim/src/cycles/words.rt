//! Texts of words and numbers.

ghost use Rattle.std.specs.Prelude.{◌≡◌, ◌++◌, decimal, flat_map, OnOk};
ghost use Rattle.cycle_sim.specs.Cycles.CycleText.{spaced_word, word_text};

use base::texts::{push_decimal, push_hex};
use std::alloc::{AllocError, Global};
use xb_bits::Bits;

/// Appends a number in decimal.
pub fn push_number(alloc: Global, text: &mut Vec<u8>, number: u64) -> Result<(), AllocError>
    ensures { OnOk result (text.new.items ≡ text.old.items ++ decimal number) }
{
    let mut digits = String::new(alloc);
    push_decimal(&mut digits, number)?;
    text.extend_from_slice(digits.as_str().as_bytes())
}

/// Appends a word: `0x`, and as many digits as its width needs.
#[tactic(auto, unfolding(crate::specs::Cycles::CycleText::word_text))]
pub fn push_word(alloc: Global, text: &mut Vec<u8>, word: Bits) -> Result<(), AllocError>
    ensures { OnOk result (text.new.items ≡ text.old.items ++ word_text word) }
{
    let mut digits = String::from_str(alloc, "0x")?;
    push_hex(&mut digits, (u32::from(word.width()) + 3) / 4, word.value())?;
    text.extend_from_slice(digits.as_str().as_bytes())
}

/// Appends words, each with a space before it.
pub fn push_words(alloc: Global, text: &mut Vec<u8>, words: &[Bits]) -> Result<(), AllocError>
    ensures { OnOk result (text.new.items ≡ text.old.items ++ flat_map spaced_word words.now) }
{
    'words: for word in words {
        text.push(b' ')?;
        push_word(alloc, text, *word)?;
    }
    Ok(())
}
