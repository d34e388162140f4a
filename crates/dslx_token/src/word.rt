//! The kind of a token by itself.

ghost use Rattle.std.specs.Prelude.{◌≡◌, ◌&&◌, nat_le, true};
ghost use Rattle.std.specs.Char.{is_ascii_digit};
ghost use Rattle.std.specs.List.{list_all, prefix_len};
ghost use Rattle.std.specs.Str.Parse.{digits_value};
ghost use Rattle.base.specs.Texts.Words.{is_word_byte};
ghost use Rattle.dslx_token.specs.Kinds.{plain_kind, word_kind};
ghost use Rattle.dslx_token.specs.Lexical.{is_sized, is_width};

use crate::number::grouped_value;
use crate::rules::kind::{END, NUMBER, SIGNED, STRING, UNSIGNED};
use crate::spelling::{keyword_kind, mark_kind};
use base::texts::{begins_word, is_word_byte};

/// How many bytes from the front on are letters, digits or `_`.
pub fn word_len(text: &[u8]) -> usize
    ensures { result ≡ prefix_len is_word_byte text.now }
{
    text.iter().take_while(|byte| is_word_byte(**byte)).count()
}

/// The kind of a token by itself.
pub fn plain_kind(bytes: &[u8]) -> u8
    ensures { result ≡ plain_kind bytes.now }
{
    let Some(first) = bytes.first() else {
        return END;
    };
    if begins_word(*first) {
        word_kind(bytes)
    } else if first.is_ascii_digit() {
        NUMBER
    } else if *first == b'"' {
        STRING
    } else {
        mark_kind(bytes)
    }
}

/// `u1` and its kin, a keyword, or a name.
fn word_kind(word: &[u8]) -> u8
    ensures { result ≡ word_kind word.now }
{
    if is_sized(b'u', word) {
        UNSIGNED
    } else if is_sized(b's', word) {
        SIGNED
    } else {
        keyword_kind(word)
    }
}

/// Whether this is the letter and a width.
fn is_sized(letter: u8, word: &[u8]) -> bool
    ensures { result ≡ is_sized letter word.now }
{
    match word.split_first() {
        Some((first, digits)) => *first == letter && is_width(digits),
        None => false,
    }
}

/// Whether these are the digits of 1 to 128, without leading zeros.
fn is_width(digits: &[u8]) -> bool
    ensures { result ≡ is_width digits.now }
{
    match digits.split_first() {
        Some((first, _rest)) => *first != b'0' && are_digits(digits) && is_small(digits),
        None => false,
    }
}

/// Whether the digits stand for a number from 1 to 128.
fn is_small(digits: &[u8]) -> bool
    requires { list_all is_ascii_digit digits.now ≡ true }
    ensures { result ≡ (nat_le 1 (digits_value 10 digits.now) && nat_le (digits_value 10 digits.now) 128) }
{
    match grouped_value(10, digits) {
        Some(value) => 1 <= value && value <= 128,
        None => false,
    }
}

fn are_digits(bytes: &[u8]) -> bool
    ensures { result ≡ list_all is_ascii_digit bytes.now }
{
    bytes.iter().all(|byte| byte.is_ascii_digit())
}
