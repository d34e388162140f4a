//! The token at the front of a text.

ghost use Rattle.std.specs.Prelude.{◌≡◌, ◌≤◌, ◌+◌, length, slice_index, None, IfSome, IfOk, MatchOption};
ghost use Rattle.std.specs.Str.Parse.{AllDigits};
ghost use Rattle.vlog_text.specs.Token.Inner.Entries.{HasTokenOf};
ghost use Rattle.vlog_text.specs.Token.TokenPrefixes.{digit_run, prefix_digits, value_digits, begins_value, begins_literal, is_in_range, number_len, mark_len, signed_len, word_run, token_prefix_len};

use crate::token::characters::{double_kind, is_triple, single_kind};
use crate::token::power::is_below;
use crate::token::rules::kind::END;
use base::texts::{begins_word, is_word_byte};
use dslx_token::byte_at;
use std::alloc::{AllocError, Global};

/// How far the digits at the front of a text go.
pub fn digit_run(text: &[u8]) -> usize
    ensures len { result ≡ digit_run text.now }
    ensures within { result ≤ length text.now }
{
    text.iter().take_while(|byte| byte.is_ascii_digit()).count()
}

/// The digits at the front of a text.
pub fn prefix_digits(text: &[u8]) -> &[u8]
    ensures digits { result.now ≡ prefix_digits text.now }
    ensures all { AllDigits 10 result.now }
{
    &text[..digit_run(text)]
}

/// `'d`, and a digit behind it.
fn begins_value(text: &[u8]) -> bool
    ensures { result ≡ begins_value text.now }
{
    byte_at(text, 0) == b'\'' && byte_at(text, 1) == b'd' && byte_at(text, 2).is_ascii_digit()
}

/// Whether a literal stands at the front of a text that begins with a digit.
pub fn begins_literal(text: &[u8]) -> bool
    ensures { result ≡ begins_literal text.now }
{
    begins_value(&text[digit_run(text)..])
}

/// The digits behind the `'d` of a literal.
pub fn value_digits(text: &[u8]) -> &[u8]
    ensures digits { result.now ≡ value_digits text.now }
    ensures all { AllDigits 10 result.now }
{
    let from = digit_run(text).saturating_add(2).min(text.len());
    prefix_digits(&text[from..])
}

/// Whether the width of a literal is 1 or more, and its value below 2 to the power of that.
fn is_in_range(alloc: Global, text: &[u8]) -> Result<bool, AllocError>
    ensures { IfOk result (λ fits. fits ≡ is_in_range text.now) }
{
    let width = prefix_digits(text);
    if base::texts::number(10, width) == Some(0) {
        return Ok(false);
    }
    is_below(alloc, value_digits(text), width)
}

/// The length of the number or literal at the front of a text.
#[tactic(auto, unfolding(crate::specs::Token::TokenPrefixes::number_len))]
fn number_len(alloc: Global, text: &[u8]) -> Result<Option<usize>, AllocError>
    ensures front { IfOk result (λ len. len ≡ number_len text.now) }
    ensures within { IfOk result (λ len. IfSome len (λ len. len ≤ length text.now)) }
{
    let digits = digit_run(text);
    if !begins_literal(text) {
        return Ok(Some(digits));
    }
    if is_in_range(alloc, text)? {
        Ok(Some(digits + 2 + digit_run(&text[digits + 2..])))
    } else {
        Ok(None)
    }
}

/// The length of the mark at the front of a text.
#[tactic(auto, unfolding(crate::specs::Token::TokenPrefixes::mark_len))]
fn mark_len(first: u8, second: u8, third: u8) -> Option<usize>
    ensures { result ≡ mark_len first second third }
{
    if is_triple(first, second, third) {
        Some(3)
    } else if double_kind(first, second) < END {
        Some(2)
    } else if single_kind(first) < END {
        Some(1)
    } else {
        None
    }
}

/// The length of `$signed` at the front of a text.
fn signed_len(text: &[u8]) -> Option<usize>
    ensures front { result ≡ signed_len text.now }
    ensures within { IfSome result (λ len. len ≤ length text.now) }
{
    if text.starts_with(b"$signed") {
        Some(7)
    } else {
        None
    }
}

/// How far the word at the front of a text goes.
fn word_run(text: &[u8]) -> usize
    ensures len { result ≡ word_run text.now }
    ensures within { result ≤ length text.now }
{
    text.iter().take_while(|byte| is_word_byte(**byte)).count()
}

/// The length of the token at the front of a text that isn't empty.
pub fn token_len(alloc: Global, text: &[u8]) -> Result<Option<usize>, AllocError>
    requires { 1 ≤ length text.now }
    ensures { IfOk result (λ found. MatchOption found (token_prefix_len text.now ≡ None) (λ len. HasTokenOf text.now len)) }
{
    token_prefix_len(alloc, text)
}

/// The same, by the definition alone.
#[tactic(auto, unfolding(crate::specs::Token::TokenPrefixes::token_prefix_len))]
fn token_prefix_len(alloc: Global, text: &[u8]) -> Result<Option<usize>, AllocError>
    requires { 1 ≤ length text.now }
    ensures front { IfOk result (λ len. len ≡ token_prefix_len text.now) }
    ensures within { IfOk result (λ len. IfSome len (λ len. len ≤ length text.now)) }
{
    let first = byte_at(text, 0);
    if begins_word(first) {
        Ok(Some(word_run(text)))
    } else if first.is_ascii_digit() {
        number_len(alloc, text)
    } else if first == b'$' {
        Ok(signed_len(text))
    } else {
        Ok(mark_at(text))
    }
}

/// The length of the mark at the front of a text.
fn mark_at(text: &[u8]) -> Option<usize>
    ensures front { result ≡ mark_len (slice_index text.now 0) (slice_index text.now 1) (slice_index text.now 2) }
    ensures within { IfSome result (λ len. len ≤ length text.now) }
{
    mark_len(byte_at(text, 0), byte_at(text, 1), byte_at(text, 2))
}
