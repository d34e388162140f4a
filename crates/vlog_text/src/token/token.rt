ghost use Rattle.std.specs.Prelude.{◌≡◌, ◌<◌, ◌^◌, ◌+◌, length};
ghost use Rattle.vlog_text.specs.Token.Tokens.{verilog_lexeme_at};
ghost use Rattle.vlog_text.specs.Token.TokenPrefixes.{prefix_digits, value_digits};

use crate::token::front::{prefix_digits, value_digits};
use crate::token::kind::kind_of;
use std::marker::Model;
use xb_span::Span;

/// A token: its kind, where it stands in the text, and its bytes.
///
/// Contracts see it as a `Lexeme`.
#[derive(Drop)]
pub struct Token<'a> {
    kind: u8,
    span: Span,
    bytes: &'a [u8],
}

impl<'a> Model for Token<'a> {
    ghost use Rattle.dslx_token.specs.Lexeme.{Lexeme};

    ghost Value = { Lexeme };

    ghost view = { λ t. record { kind = t.kind; span = t.span; bytes = t.bytes.now } };
}

impl<'a> Token<'a> {
    /// The token of the bytes from this position on.
    pub(crate) fn new(from: u32, bytes: &'a [u8]) -> Token<'a>
        requires { from + length bytes.now < 2 ^ 32 }
        ensures { result ≡ verilog_lexeme_at from bytes.now }
    {
        Token {
            kind: kind_of(bytes),
            span: Span {
                from,
                to: from + bytes.len() as u32,
            },
            bytes,
        }
    }

    /// Its kind, one of `crate::token::rules::kind`.
    pub fn kind(&self) -> u8
        ensures { result ≡ self.now.kind }
    {
        self.kind
    }

    /// Where it stands.
    pub fn span(&self) -> Span
        ensures { result ≡ self.now.span }
    {
        self.span
    }

    /// The bytes that stand there.
    pub fn bytes(&self) -> &'a [u8]
        ensures { result.now ≡ self.now.bytes }
    {
        self.bytes
    }

    /// The digits at its front: of a number all, of a literal those of its width.
    pub fn prefix_digits(&self) -> &'a [u8]
        ensures { result.now ≡ prefix_digits self.now.bytes }
    {
        prefix_digits(self.bytes)
    }

    /// The digits of a literal's value.
    pub fn value_digits(&self) -> &'a [u8]
        ensures { result.now ≡ value_digits self.now.bytes }
    {
        value_digits(self.bytes)
    }
}
