ghost use Rattle.std.specs.Prelude.{◌≡◌, ◌≤◌, ◌<◌, ◌⊎◌, ◌^◌, ◌+◌, length, true};
ghost use Rattle.std.specs.Str.{IsAscii};
ghost use Rattle.std.specs.Str.Parse.{digits_value};
ghost use Rattle.dslx_token.specs.Kinds.{Fits, plain_kind};
ghost use Rattle.dslx_token.specs.Lexical.{is_width, number_value, width_of};
ghost use Rattle.dslx_token.specs.Tokens.{lexeme_at};

use crate::number::{grouped_value, number_value};
use crate::rules::kind::{NUMBER, SIGNED, UNSIGNED};
use crate::word::plain_kind;
use std::marker::Model;
use xb_span::Span;

/// A token: its kind, where it stands in the text, and its bytes.
///
/// Contracts see it as a `Lexeme`.
#[derive(Drop)]
pub struct Token<'a> {
    kind: u8,
    span: Span,
    bytes: &'a [u8],
}

impl<'a> Model for Token<'a> {
    ghost use Rattle.dslx_token.specs.Lexeme.{Lexeme};
    ghost use Rattle.dslx_token.specs.Kinds.{Fits};

    ghost Value = { Lexeme };

    ghost view = { λ t. record { kind = t.kind; span = t.span; bytes = t.bytes.now } };

    ghost invariant = { λ t. Fits t.kind t.bytes.now };
}

impl<'a> Token<'a> {
    /// The bytes at this position, with the kind that they have by themselves.
    pub(crate) fn plain(from: u32, bytes: &'a [u8]) -> Token<'a>
        requires within { from + length bytes.now < 2 ^ 32 }
        requires fits { Fits (plain_kind bytes.now) bytes.now }
        ensures { result ≡ lexeme_at from bytes.now }
    {
        Token {
            kind: plain_kind(bytes),
            span: Span {
                from,
                to: from + bytes.len() as u32,
            },
            bytes,
        }
    }

    /// Gives it another kind.
    pub(crate) fn settle(&mut self, kind: u8)
        requires { Fits kind self.old.bytes }
        ensures { self.new ≡ record self.old { kind = kind } }
    {
        self.kind = kind;
    }

    /// Its kind, one of `crate::rules::kind`.
    pub fn kind(&self) -> u8
        ensures kind { result ≡ self.now.kind }
        ensures fits { Fits self.now.kind self.now.bytes }
    {
        self.kind
    }

    /// Where it stands.
    pub fn span(&self) -> Span
        ensures { result ≡ self.now.span }
    {
        self.span
    }

    /// The bytes that stand there; those of a string with its quotes.
    pub fn bytes(&self) -> &'a [u8]
        ensures { result.now ≡ self.now.bytes }
    {
        self.bytes
    }

    /// The bytes as a text.
    pub fn text(&self) -> &'a str
        ensures { result.now ≡ self.now.bytes }
    {
        ascii_text(self.bytes)
    }

    /// What a number stands for.
    pub fn value(&self) -> u128
        requires { self.now.kind ≡ NUMBER }
        ensures { result ≡ number_value self.now.bytes }
    {
        number_value(self.bytes).unwrap_or(0)
    }

    /// The width that `u1` and its kin say.
    pub fn width(&self) -> u8
        requires { (self.now.kind ≡ UNSIGNED) ⊎ (self.now.kind ≡ SIGNED) }
        ensures width { result ≡ width_of self.now.bytes }
        ensures least { 1 ≤ result }
        ensures most { result ≤ 128 }
    {
        stated_width(&self.bytes[1..])
    }
}

/// The width that these digits say.
fn stated_width(digits: &[u8]) -> u8
    requires { is_width digits.now ≡ true }
    ensures width { result ≡ digits_value 10 digits.now }
    ensures least { 1 ≤ result }
    ensures most { result ≤ 128 }
{
    grouped_value(10, digits).unwrap_or(1) as u8
}

/// ASCII bytes as a text.
fn ascii_text(bytes: &[u8]) -> &str
    requires { IsAscii bytes.now }
    ensures { result.now ≡ bytes.now }
{
    match str::from_utf8(bytes) {
        Ok(text) => text,
        Err(_) => "",
    }
}
