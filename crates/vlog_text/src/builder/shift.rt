//! What a token adds.

ghost use Rattle.std.specs.Prelude.{◌≡◌, OnOk};
ghost use Rattle.vlog_text.specs.Builder.Building.{kept, kept_literal, kept_name, kept_number, kept_start, shifted};
ghost use Rattle.vlog_text.specs.Builder.Parts.{name_text};

use crate::builder::ident::Ident;
use crate::builder::literal::{literal, short};
use crate::builder::state::State;
use crate::token::Token;
use crate::token::rules::kind::{ASSIGN, CLK, LITERAL, NAME, NUMBER, RST, ZERO};
use std::alloc::AllocError;

impl<'a> State<'a> {
    /// Adds a token.
    pub fn shift(&mut self, token: &Token<'a>) -> Result<(), AllocError>
        ensures { OnOk result (self.new ≡ shifted token.now self.old) }
    {
        self.last = token.span();
        self.keep(token)
    }

    /// Keeps what a token says, if it says anything but where it is.
    fn keep(&mut self, token: &Token<'a>) -> Result<(), AllocError>
        ensures { OnOk result (self.new ≡ kept token.now self.old) }
    {
        match token.kind() {
            NAME | CLK | RST => self.keep_name(token),
            LITERAL => self.keep_literal(token),
            NUMBER | ZERO => self.keep_number(token),
            ASSIGN => self.keep_start(token),
            _ => Ok(()),
        }
    }

    fn keep_name(&mut self, token: &Token<'a>) -> Result<(), AllocError>
        ensures { OnOk result (self.new ≡ kept_name token.now self.old) }
    {
        self.idents
            .push(Ident::new(token.span(), text_of(token.bytes())))
    }

    fn keep_literal(&mut self, token: &Token<'a>) -> Result<(), AllocError>
        ensures { OnOk result (self.new ≡ kept_literal token.now self.old) }
    {
        self.literals.push(literal(token))?;
        self.literal_ends.push(token.span().to)
    }

    fn keep_number(&mut self, token: &Token<'a>) -> Result<(), AllocError>
        ensures { OnOk result (self.new ≡ kept_number token.now self.old) }
    {
        self.numbers.push(short(token.prefix_digits()))
    }

    fn keep_start(&mut self, token: &Token<'a>) -> Result<(), AllocError>
        ensures { OnOk result (self.new ≡ kept_start token.now self.old) }
    {
        self.starts.push(token.span().from)
    }
}

/// The bytes of a name, which are ASCII.
fn text_of(bytes: &[u8]) -> &str
    ensures { result.now ≡ name_text bytes.now }
{
    match str::from_utf8(bytes) {
        Ok(text) => text,
        Err(_) => "",
    }
}
