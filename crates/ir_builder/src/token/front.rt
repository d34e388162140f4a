//! The token at the front of a text.

ghost use Rattle.std.specs.Prelude.{◌≡◌, ◌≤◌, length, None, IfSome, MatchOption};
ghost use Rattle.ir_builder.specs.Token.Inner.Entries.{HasTokenPrefix};
ghost use Rattle.ir_builder.specs.Token.TokenPrefixes.{word_goes_on, name_len, number_prefix, token_prefix};

use crate::token::characters::mark_kind;
use crate::token::number::{digits_len, value_of_number};
use crate::token::rules::kind::END;
use base::texts::{begins_word, is_word_byte};
use dslx_token::byte_at;

fn word_goes_on(byte: u8, behind: u8) -> bool
    ensures { result ≡ word_goes_on byte behind }
{
    is_word_byte(byte) || byte == b'.' || byte == b'/' && behind != b'/'
}

/// How far the word at the front of a text goes.
fn name_len(text: &[u8]) -> usize
    ensures len { result ≡ name_len text.now }
    ensures within { result ≤ length text.now }
{
    let mut at = 0;
    'word: while at < text.len() {
        if !word_goes_on(text[at], byte_at(text, at + 1)) {
            return at;
        }
        at += 1;
    }
    at
}

/// The length of the number at the front of a text, where it is below 2^128.
fn number_prefix(text: &[u8]) -> Option<usize>
    ensures front { result ≡ number_prefix text.now }
    ensures within { IfSome result (λ len. len ≤ length text.now) }
{
    let len = digits_len(text);
    match value_of_number(&text[..len]) {
        Some(_) => Some(len),
        None => None,
    }
}

/// The length of the token at the front of a text that isn't empty.
pub fn token_len(text: &[u8]) -> Option<usize>
    requires { 1 ≤ length text.now }
    ensures { MatchOption result (token_prefix text.now ≡ None) (λ len. HasTokenPrefix text.now len) }
{
    token_prefix(text)
}

/// The same, by the definition alone.
fn token_prefix(text: &[u8]) -> Option<usize>
    requires { 1 ≤ length text.now }
    ensures front { result ≡ token_prefix text.now }
    ensures within { IfSome result (λ len. len ≤ length text.now) }
{
    let first = byte_at(text, 0);
    if begins_word(first) {
        Some(name_len(text))
    } else if first.is_ascii_digit() {
        number_prefix(text)
    } else if mark_kind(first) == END {
        None
    } else {
        Some(1)
    }
}
