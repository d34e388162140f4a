//! The lines of a text.

ghost use Rattle.std.specs.Prelude.{◌≡◌, ◌∷◌, [], MatchOption};
ghost use Rattle.base.specs.Texts.Lines.{lines_of, positioned};
ghost use Rattle.base.specs.Texts.Inner.Split.{IsSplit};

use std::marker::Model;

/// A line of a text, without its LF, and the position of its first byte in the text.
#[derive(Clone, Copy)]
pub struct Line<'a> {
    pub at: usize,
    pub bytes: &'a [u8],
}

/// The lines of a text that are left to read. Contracts see them as their list, each with its position.
#[derive(Drop)]
pub struct Lines<'a> {
    at: usize,
    rest: &'a [u8],
}

impl<'a> Model for Lines<'a> {
    ghost use Rattle.std.specs.Prelude.{◌+◌, ◌<◌, ◌^◌, List, ℕ, length};
    ghost use Rattle.base.specs.Texts.Lines.{lines_of, positioned};
    ghost use Rattle.base.specs.Texts.Inner.Split.{IsSplit};

    ghost Value = { List (ℕ × List ℕ) };

    ghost view = { λ l. positioned l.at (lines_of l.rest.now) };

    ghost invariant = { λ l. l.at + length l.rest.now < 2 ^ 64 };
}

impl<'a> Lines<'a> {
    /// The lines of a text: each ends with LF, the last one perhaps not.
    pub fn new(text: &'a [u8]) -> Lines<'a>
        ensures { result ≡ positioned 0 (lines_of text.now) }
    {
        Lines { at: 0, rest: text }
    }

    /// Takes the next line.
    pub fn next(&mut self) -> Option<Line<'a>>
        ensures { MatchOption result ((self.old ≡ []) × (self.new ≡ [])) (λ line. self.old ≡ (line.at, line.bytes.now) ∷ self.new) }
    {
        let (line, rest) = split_line(self.rest)?;
        let at = self.at;
        self.at = at + (self.rest.len() - rest.len());
        self.rest = rest;
        Some(Line { at, bytes: line })
    }
}

/// The first line of a text, and what stands behind its end.
fn split_line(text: &[u8]) -> Option<(&[u8], &[u8])>
    ensures { MatchOption result (text.now ≡ []) (λ split. IsSplit text.now split.0.now split.1.now) }
{
    if text.is_empty() {
        return None;
    }
    for (at, byte) in text.iter().enumerate() {
        if *byte == b'\n' {
            return Some((&text[..at], &text[at + 1..]));
        }
    }
    Some((text, &text[text.len()..]))
}
