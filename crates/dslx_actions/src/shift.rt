//! What a token adds.

ghost use Rattle.std.specs.Prelude.{◌≡◌, IfOk, OnOk};
ghost use Rattle.std.specs.Str.{IsAscii};
ghost use Rattle.dslx_actions.specs.Tokens.{is_signed_word, shifted, shifted_bits, shifted_bool, shifted_name, shifted_number, shifted_wide, unquoted};

use crate::parts::{Digits, SemanticStacks};
use base::texts::Name;
use dslx_token::Token;
use dslx_token::rules::kind::{
    BOOL, BOTHNAME, FUNNAME, NAME, NUMBER, SIGNED, STRING, STRUCTNAME, TYPENAME, UNSIGNED, WIDE,
};
use dslx_tree::{Ident, TypeExpr, TypeNode};
use std::alloc::{AllocError, Global};
use xb_span::Span;

impl SemanticStacks {
    /// Adds a token.
    pub fn shift(&mut self, alloc: Global, token: &Token) -> Result<(), AllocError>
        ensures { OnOk result (self.new ≡ shifted token.now self.old) }
    {
        match token.kind() {
            NAME | TYPENAME | FUNNAME | STRUCTNAME | BOTHNAME => self.shift_name(
                alloc,
                token.span(),
                token.text(),
            ),
            STRING => self.shift_string(alloc, token),
            NUMBER => self.shift_number(token.span(), token.value()),
            UNSIGNED => self.shift_bits(token.span(), false, token.width()),
            SIGNED => self.shift_bits(token.span(), true, token.width()),
            BOOL => self.shift_bool(token.span()),
            WIDE => self.shift_wide(token.span(), is_signed_word(token.bytes())),
            _ => self.token_spans.push(token.span()),
        }
    }

    fn shift_name(&mut self, alloc: Global, span: Span, text: &str) -> Result<(), AllocError>
        ensures { OnOk result (self.new ≡ shifted_name span text.now self.old) }
    {
        let name = Name::from_string(String::from_str(alloc, text)?);
        self.idents.push(Ident { span, name })
    }

    fn shift_string(&mut self, alloc: Global, token: &Token) -> Result<(), AllocError>
        requires { IsAscii token.now.bytes }
        ensures { OnOk result (self.new ≡ shifted_name token.now.span (unquoted token.now.bytes) self.old) }
    {
        self.shift_name(alloc, token.span(), unquoted(token.text()))
    }

    fn shift_number(&mut self, span: Span, value: u128) -> Result<(), AllocError>
        ensures { OnOk result (self.new ≡ shifted_number span value self.old) }
    {
        self.numbers.push(Digits {
            span,
            is_negative: false,
            value,
        })
    }

    fn shift_bits(&mut self, span: Span, is_signed: bool, width: u8) -> Result<(), AllocError>
        ensures { OnOk result (self.new ≡ shifted_bits span is_signed width self.old) }
    {
        self.types.push(TypeExpr {
            span,
            node: TypeNode::Bits(is_signed, width),
        })
    }

    fn shift_bool(&mut self, span: Span) -> Result<(), AllocError>
        ensures { OnOk result (self.new ≡ shifted_bool span self.old) }
    {
        self.types.push(TypeExpr {
            span,
            node: TypeNode::Bool,
        })
    }

    fn shift_wide(&mut self, span: Span, is_signed: bool) -> Result<(), AllocError>
        ensures { OnOk result (self.new ≡ shifted_wide span is_signed self.old) }
    {
        self.token_spans.push(span)?;
        self.flags.push(is_signed)
    }
}

/// Whether `sN` stands there, of the words `uN`, `bits` and `sN`.
fn is_signed_word(word: &[u8]) -> bool
    ensures { result ≡ is_signed_word word.now }
{
    word == b"sN".as_slice()
}

/// What stands between the quotes of an ASCII text.
fn unquoted(text: &str) -> &str
    requires { IsAscii text.now }
    ensures { result.now ≡ unquoted text.now }
{
    match str::from_utf8(between_ends(text.as_bytes())) {
        Ok(word) => word,
        Err(_) => "",
    }
}

/// The bytes but for the first and the last one.
fn between_ends(bytes: &[u8]) -> &[u8]
    ensures { result.now ≡ unquoted bytes.now }
{
    let last = bytes.len().saturating_sub(1);
    match &bytes[..last] {
        [_, word @ ..] => word,
        none => none,
    }
}
