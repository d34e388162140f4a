//! Cutting a text into its longest tokens.

ghost use Rattle.std.specs.Prelude.{◌≡◌, ◌<◌, ◌^◌, true, length, slice_index, IfErr, IfOk, MatchOption};
ghost use Rattle.std.specs.Char.{is_ascii_digit};
ghost use Rattle.dslx_token.specs.Inner.TokenPrefixes.{HasNoTokenPrefix, IsTokenPrefixLen, IsTokenLen};
ghost use Rattle.dslx_token.specs.Tokens.{BeginsNoToken, PlainTokens};
ghost use Rattle.dslx_token.specs.Refusal.{IsRefusal};

use crate::blank::skip_blank;
use crate::characters::byte_at;
use crate::number::{number_len, number_value};
use crate::spelling::first_mark;
use crate::token::Token;
use crate::word::word_len;
use base::texts::begins_word;
use std::alloc::Global;
use xb_span::ReadError;

/// The tokens of a text, each with the kind that it has by itself, and the mark at the text's end.
pub fn plain_tokens(alloc: Global, text: &[u8]) -> Result<Vec<Token<'_>>, ReadError>
    requires { length text.now < 2 ^ 32 }
    ensures found { IfOk result (λ tokens. PlainTokens text.now text.now tokens.items) }
    ensures refused { IfErr result (λ e. IsRefusal text.now e) }
{
    let mut tokens = Vec::new(alloc);
    let mut rest = skip_blank(text);
    'text: while !rest.is_empty() {
        let from = (text.len() - rest.len()) as u32;
        let Some(len) = token_len(rest) else {
            return Err(ReadError::Syntax(from));
        };
        let (bytes, behind) = rest.split_at(len);
        tokens.push(Token::plain(from, bytes))?;
        rest = skip_blank(behind);
    }
    tokens.push(Token::plain(text.len() as u32, rest))?;
    Ok(tokens)
}

/// The length of the token at the front of a text.
fn token_len(text: &[u8]) -> Option<usize>
    ensures { MatchOption result (BeginsNoToken text.now) (λ len. IsTokenLen text.now len) }
{
    let first = byte_at(text, 0);
    if begins_word(first) {
        Some(word_len(text))
    } else if first.is_ascii_digit() {
        whole_number_len(text)
    } else if first == b'"' {
        string_len(text)
    } else {
        first_mark(text)
    }
}

/// The length of the number at the front of a text that begins with a digit, where it is below 2^128 and no
/// letter follows it.
fn whole_number_len(text: &[u8]) -> Option<usize>
    requires { is_ascii_digit (slice_index text.now 0) ≡ true }
    ensures { MatchOption result (BeginsNoToken text.now) (λ len. IsTokenLen text.now len) }
{
    let len = number_len(text);
    let (number, behind) = text.split_at(len);
    if byte_at(behind, 0).is_ascii_alphabetic() || number_value(number).is_none() {
        return None;
    }
    Some(len)
}

/// The length of the string at the front of a text that begins with a quote.
fn string_len(text: &[u8]) -> Option<usize>
    requires { slice_index text.now 0 ≡ 34 }
    ensures { MatchOption result (HasNoTokenPrefix text.now) (λ len. IsTokenPrefixLen text.now len) }
{
    let name = &text[1..];
    let len = word_len(name);
    if begins_word(byte_at(name, 0)) && byte_at(name, len) == b'"' {
        Some(len + 2)
    } else {
        None
    }
}
