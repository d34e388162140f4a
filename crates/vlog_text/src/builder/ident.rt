ghost use Rattle.std.specs.Prelude.{◌≡◌};

use std::marker::Model;
use xb_span::Span;

/// A name in a text. Contracts see its span and its bytes.
#[derive(Drop)]
pub struct Ident<'a> {
    span: Span,
    name: &'a str,
}

impl<'a> Model for Ident<'a> {
    ghost use Rattle.vlog_text.specs.Builder.Parts.{Named};

    ghost Value = { Named };

    ghost view = { λ i. record { span = i.span; name = i.name.now } };
}

impl<'a> Ident<'a> {
    ghost use Rattle.std.specs.Prelude.{◌≡◌};
    ghost use Rattle.vlog_text.specs.Builder.Empty.{no_ident};

    pub fn new(span: Span, name: &'a str) -> Ident<'a>
        ensures { result ≡ record { span = span; name = name.entry.now } }
    {
        Ident { span, name }
    }

    /// What stands for a name that isn't there.
    pub fn none() -> Ident<'a>
        ensures { result ≡ no_ident }
    {
        Ident {
            span: Span { from: 0, to: 0 },
            name: "",
        }
    }

    pub fn span(&self) -> Span
        ensures { result ≡ self.now.span }
    {
        self.span
    }

    pub fn name(&self) -> &'a str
        ensures { result.now ≡ self.now.name }
    {
        self.name
    }
}
