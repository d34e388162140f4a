//! Names: which ones a text can have, and which ones were seen.

ghost use Rattle.std.specs.Prelude.{◌≡◌, slice_index};
ghost use Rattle.ir_tree.specs.Rules.Lines.{name_goes_on, all_go_on, is_name};

use base::texts::{begins_word, is_word_byte};
use std::alloc::{AllocError, Global};
use std::collections::BTreeMap;

/// Whether a text can have this name: a letter or `_`, then letters, digits, `_`, `.`, and `/` without another one behind it.
pub fn is_name(name: &str) -> bool
    ensures { result ≡ is_name name.now }
{
    let bytes = name.as_bytes();
    match bytes {
        [] => false,
        [first, ..] => begins_word(*first) && all_go_on(bytes),
    }
}

fn all_go_on(bytes: &[u8]) -> bool
    ensures { result ≡ all_go_on bytes.now }
{
    'bytes: for i in 0..bytes.len() {
        if !name_goes_on(bytes[i], byte_at(bytes, i + 1)) {
            return false;
        }
    }
    true
}

fn name_goes_on(byte: u8, behind: u8) -> bool
    ensures { result ≡ name_goes_on byte behind }
{
    is_word_byte(byte) || byte == b'.' || byte == b'/' && behind != b'/'
}

/// The byte at an index, and 0 behind the last one.
fn byte_at(bytes: &[u8], place: usize) -> u8
    ensures { result ≡ slice_index bytes.now place }
{
    match bytes.get(place) {
        Some(byte) => *byte,
        None => 0,
    }
}

/// Names that were seen.
#[derive(Drop)]
pub struct Names<'a> {
    seen: BTreeMap<&'a str, ()>,
}

impl<'a> Names<'a> {
    ghost use Rattle.std.specs.Prelude.{◌≡◌, ◌||◌, ℕ, List, false, not, IfOk, OnOk};
    ghost use Rattle.std.specs.Str.{bytes_eq};
    ghost use Rattle.ir_tree.specs.Rules.Inner.Seen.{has};

    pub fn new(alloc: Global) -> Names<'a>
        ensures { (q : List ℕ) → has result q ≡ false }
    {
        Names {
            seen: BTreeMap::new(alloc),
        }
    }

    /// Adds a name, and says whether it is new.
    pub fn insert(&mut self, name: &'a str) -> Result<bool, AllocError>
        ensures is_new { IfOk result (λ is_new. is_new ≡ not (has self.old name.now)) }
        ensures names { OnOk result ((q : List ℕ) → has self.new q ≡ (bytes_eq name.now q || has self.old q)) }
    {
        match self.seen.insert(name, ()) {
            Ok(None) => Ok(true),
            Ok(Some(_)) => Ok(false),
            Err(_) => Err(AllocError),
        }
    }
}
