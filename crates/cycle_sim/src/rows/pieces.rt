//! The pieces of a line.

ghost use Rattle.std.specs.Prelude.{◌≡◌, ◌≤◌, ◌<◌, ◌^◌, ◌∷◌, [], length, take, drop, IsTrue, ◌↔◌, MatchOption};
ghost use Rattle.cycle_sim.specs.Rows.Forms.{open_behind, parts_here, pieces_of};
ghost use Rattle.cycle_sim.specs.Rows.Inner.Shapes.{more_pieces, piece_len, pieces_left};

use std::marker::Model;

/// The pieces of a line that are left. Contracts see their list.
#[derive(Drop)]
pub struct Pieces<'a> {
    rest: Option<&'a [u8]>,
}

impl<'a> Model for Pieces<'a> {
    ghost use Rattle.std.specs.Prelude.{List, ℕ};
    ghost use Rattle.cycle_sim.specs.Rows.Inner.Shapes.{pieces_left};

    ghost Value = { List (List ℕ) };

    ghost view = { λ p. pieces_left p.rest };
}

impl<'a> Pieces<'a> {
    /// All pieces of a line.
    pub fn new(line: &'a [u8]) -> Pieces<'a>
        ensures { result ≡ pieces_of 0 line.entry.now }
    {
        Pieces { rest: Some(line) }
    }

    /// Whether none is left.
    pub fn is_done(&self) -> bool
        ensures { IsTrue result ↔ (self.now ≡ []) }
    {
        self.rest.is_none()
    }

    /// Takes the next piece.
    pub fn next(&mut self) -> Option<&'a [u8]>
        ensures { MatchOption result ((self.old ≡ []) × (self.new ≡ [])) (λ piece. self.old ≡ piece.now ∷ self.new) }
    {
        match self.rest {
            None => None,
            Some(line) => {
                let (piece, behind) = line.split_at(piece_len(line));
                self.rest = behind_space(behind);
                Some(piece)
            }
        }
    }
}

/// How far the first piece of a line goes.
fn piece_len(line: &[u8]) -> usize
    ensures len { result ≡ piece_len 0 line.now }
    ensures within { result ≤ length line.now }
{
    let mut depth = 0u64;
    'line: for (at, &byte) in line.iter().enumerate() {
        if byte == b' ' && depth == 0 {
            return at;
        }
        depth = open_behind(depth, byte);
    }
    line.len()
}

/// What is left behind the space at which a piece ends.
fn behind_space(behind: &[u8]) -> Option<&[u8]>
    ensures { pieces_left result ≡ more_pieces behind.now }
{
    match behind {
        [_, rest @ ..] => Some(rest),
        [] => None,
    }
}

/// How many brackets are open behind a byte. They are never more than the bytes.
fn open_behind(depth: u64, byte: u8) -> u64
    requires { depth < 2 ^ 63 }
    ensures { result ≡ open_behind depth byte }
{
    match byte {
        b'(' | b'[' => depth + 1,
        b')' | b']' => depth.saturating_sub(1),
        _ => depth,
    }
}
