ghost use Rattle.std.specs.Prelude.{◌≡◌, ◌<◌, ◌^◌, ◌+◌, ◌-◌, [], length, min};
ghost use Rattle.std.specs.Str.{IsAscii};
ghost use Rattle.delay_model.specs.Names.{op_named};
ghost use Rattle.ir_builder.specs.Token.Kinds.{op_part};
ghost use Rattle.ir_builder.specs.Token.Said.{number_said, small_said, id_said};
ghost use Rattle.ir_builder.specs.Token.Tokens.{ir_lexeme_at};

use crate::token::kind::{id_part, op_named, op_part, plain_kind};
use crate::token::number::value_of_number;
use delay_model::Op;
use std::marker::Model;
use std::str;
use xb_span::Span;

/// A token: its kind, where it stands in the text, and its bytes.
///
/// Contracts see it as a `Lexeme`.
#[derive(Drop)]
pub struct Token<'a> {
    kind: u8,
    span: Span,
    bytes: &'a [u8],
}

impl<'a> Model for Token<'a> {
    ghost use Rattle.std.specs.Str.{IsAscii};
    ghost use Rattle.dslx_token.specs.Lexeme.{Lexeme};

    ghost Value = { Lexeme };

    ghost view = { λ t. record { kind = t.kind; span = t.span; bytes = t.bytes.now } };

    ghost invariant = { λ t. IsAscii t.bytes.now };
}

impl<'a> Token<'a> {
    /// The token of the bytes from this position on, with the kind that they have by themselves.
    pub(crate) fn plain(from: u32, bytes: &'a [u8]) -> Token<'a>
        requires within { from + length bytes.now < 2 ^ 32 }
        requires ascii { IsAscii bytes.now }
        ensures { result ≡ ir_lexeme_at from bytes.now }
    {
        Token {
            kind: plain_kind(bytes),
            span: Span {
                from,
                to: from + bytes.len() as u32,
            },
            bytes,
        }
    }

    /// Gives it another kind.
    pub(crate) fn settle(&mut self, kind: u8)
        ensures { self.new ≡ record self.old { kind = kind } }
    {
        self.kind = kind;
    }

    /// Its kind, one of `crate::token::rules::kind`.
    pub fn kind(&self) -> u8
        ensures { result ≡ self.now.kind }
    {
        self.kind
    }

    /// Where it stands.
    pub fn span(&self) -> Span
        ensures { result ≡ self.now.span }
    {
        self.span
    }

    /// The bytes that stand there.
    pub fn bytes(&self) -> &'a [u8]
        ensures { result.now ≡ self.now.bytes }
    {
        self.bytes
    }

    /// The same as a text.
    pub fn text(&self) -> &'a str
        ensures { result.now ≡ self.now.bytes }
    {
        ascii_text(self.bytes)
    }

    /// What a number stands for.
    pub fn number(&self) -> u128
        ensures { result ≡ number_said self.now.bytes }
    {
        value_of_number(self.bytes).unwrap_or(u128::MAX)
    }

    /// What a number below 2^32 stands for.
    pub fn small_number(&self) -> u32
        ensures { result ≡ small_said self.now.bytes }
    {
        at_most_u32(self.number())
    }

    /// The id of an `OP.ID`.
    pub fn id(&self) -> u32
        ensures { result ≡ id_said self.now.bytes }
    {
        at_most_u32(base::texts::number(10, id_part(self.bytes)).unwrap_or(u128::MAX))
    }

    /// The operation of an `OP.ID`.
    pub fn op(&self) -> Option<Op>
        ensures { result ≡ op_named (op_part self.now.bytes) }
    {
        op_named(op_part(self.bytes))
    }

    /// The same token once more.
    pub fn again(&self) -> Token<'a>
        ensures { result ≡ self.now }
    {
        Token {
            kind: self.kind,
            span: self.span,
            bytes: self.bytes,
        }
    }
}

impl Token<'_> {
    /// The mark at the end of an empty text.
    pub fn nothing() -> Token<'static>
        ensures { result ≡ ir_lexeme_at 0 [] }
    {
        Token::plain(0, &[])
    }
}

/// The number, at most 2^32 - 1.
fn at_most_u32(number: u128) -> u32
    ensures { result ≡ min number (2 ^ 32 - 1) }
{
    number.min(u128::from(u32::MAX)) as u32
}

/// ASCII bytes as a text.
fn ascii_text(bytes: &[u8]) -> &str
    requires { IsAscii bytes.now }
    ensures { result.now ≡ bytes.now }
{
    match str::from_utf8(bytes) {
        Ok(text) => text,
        Err(_) => "",
    }
}
