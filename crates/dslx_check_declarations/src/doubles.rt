//! Whether two members of an enum have one value.

ghost use Rattle.std.specs.Prelude.{◌≡◌, IfOk};
ghost use Rattle.dslx_meaning.specs.Rules.ItemRules as the;
ghost use Rattle.dslx_check_declarations.specs.Doubles.{IsOfKind, NotesValue, NotesWord};

use crate::value_types::{kind_of, same_kind};
use dslx_meaning::{BitKind, DslxValue};
use std::alloc::{AllocError, Global};
use std::collections::HashSet;

/// Whether two of these values are equal. All that are there are bits of this kind; another one, which no member has, is refused as for
/// want of memory. It takes time as there are values.
pub fn has_equal_values(
    alloc: Global,
    kind: BitKind,
    values: &[Option<DslxValue>],
) -> Result<bool, AllocError>
    ensures { IfOk result (λ b. b ≡ the.has_equal_values values.now) }
{
    let mut words = HashSet::new(alloc);
    let count = values.len();
    'values: for i in 0..count {
        let is_double = note_value(&mut words, kind, &values[count - 1 - i])?;
        if is_double {
            return Ok(true);
        }
    }
    Ok(false)
}

/// Notes the word of a value before those whose words are noted, and says whether one of these has it too.
fn note_value(
    words: &mut HashSet<u128>,
    kind: BitKind,
    value: &Option<DslxValue>,
) -> Result<bool, AllocError>
    ensures { IfOk result (λ is_double. NotesValue kind words.old words.new value.now is_double) }
{
    match value {
        None => Ok(false),
        Some(value) => {
            let word = word_of(kind, value)?;
            note_word(words, word)
        }
    }
}

/// Notes a word, and says whether it was noted before.
fn note_word(words: &mut HashSet<u128>, word: u128) -> Result<bool, AllocError>
    ensures { IfOk result (λ is_double. NotesWord words.old words.new word is_double) }
{
    let is_new = words.insert(word)?;
    Ok(!is_new)
}

/// The word of bits of this kind.
fn word_of(kind: BitKind, value: &DslxValue) -> Result<u128, AllocError>
    ensures { IfOk result (λ word. IsOfKind kind word value.now) }
{
    match value {
        DslxValue::Bits(signed, word) => {
            if same_kind(kind, kind_of(*signed, *word)) {
                Ok(word.value())
            } else {
                Err(AllocError)
            }
        }
        _ => Err(AllocError),
    }
}
