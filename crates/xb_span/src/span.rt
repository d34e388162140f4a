ghost use Rattle.std.specs.Prelude.{Some};

use std::fmt;

/// The bytes of a text from `from` up to, and without, `to`.
#[derive(Clone, Copy, Debug, PartialEq, Eq, Hash)]
pub struct Span {
    pub from: u32,
    pub to: u32,
}

/// A rule of checking, by its number in the language's reference.
#[derive(Clone, Copy, Debug, PartialEq, Eq, PartialOrd, Ord, Hash)]
pub struct Rule(pub u16);

/// `FROM..TO`
impl fmt::Display for Span {
    ghost use Rattle.xb_span.specs.RefusalText.{span_text};

    ghost output = { λ s. Some (span_text s) };

    fn fmt<W: fmt::Write>(&self, f: &mut fmt::Formatter<W>) -> fmt::Result {
        let from = self.from;
        let to = self.to;
        write!(f, "{from}..{to}")
    }
}

/// `rule R`
impl fmt::Display for Rule {
    ghost use Rattle.xb_span.specs.RefusalText.{rule_text};

    ghost output = { λ r. Some (rule_text r) };

    fn fmt<W: fmt::Write>(&self, f: &mut fmt::Formatter<W>) -> fmt::Result {
        let number = self.0;
        write!(f, "rule {number}")
    }
}
