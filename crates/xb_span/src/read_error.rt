ghost use Rattle.std.specs.Prelude.{◌≡◌, Some, flat_map};
ghost use Rattle.xb_span.specs.PieceText.{piece_text};
ghost use Rattle.xb_span.specs.RefusalText.{refusal_text};
ghost use Rattle.xb_span.specs.declared.read_error.ReadError.{ReadError};
ghost use Rattle.xb_span.specs.declared.read_error.ReadError.TheVariants.{OutOfMemory};

use crate::limit::Limit;
use crate::piece::Piece;
use crate::span::{Rule, Span};
use std::alloc::{AllocError, AllocFailed};
use std::fmt;

/// Why a text is refused.
#[derive(Clone, Copy, Debug, PartialEq, Eq)]
pub enum ReadError {
    /// The byte with which the text is no longer a prefix of any text of its grammar.
    Syntax(u32),
    /// A rule that the part at a span breaks.
    Broken(Rule, Span),
    /// A quantity past its limit.
    Over(Limit),
    /// There was no memory to answer.
    OutOfMemory,
}

impl ReadError {
    /// The same message as its `Display`, in pieces.
    pub fn pieces(self) -> [Piece<'static>; 6]
        ensures { flat_map piece_text result ≡ refusal_text self }
    {
        let none = Piece::Text("");
        match self {
            ReadError::Syntax(at) => {
                let at = Piece::Number(at as u64);
                [Piece::Text("syntax at "), at, none, none, none, none]
            }
            ReadError::Broken(rule, span) => [
                Piece::Text("rule "),
                Piece::Number(rule.0 as u64),
                Piece::Text(" at "),
                Piece::Number(span.from as u64),
                Piece::Text(".."),
                Piece::Number(span.to as u64),
            ],
            ReadError::Over(limit) => [
                Piece::Text("limit "),
                Piece::Text(limit.what.word()),
                Piece::Text(": "),
                Piece::Number(limit.found),
                Piece::Text(", at most "),
                Piece::Number(limit.most),
            ],
            ReadError::OutOfMemory => [Piece::Text("out of memory"), none, none, none, none, none],
        }
    }
}

impl From<AllocError> for ReadError {
    ghost from_gives = { λ _ e. e ≡ ReadError.OutOfMemory };

    fn from(_error: AllocError) -> ReadError {
        ReadError::OutOfMemory
    }
}

impl<T: Drop> From<AllocFailed<T>> for ReadError {
    ghost from_gives = { λ _ e. e ≡ ReadError.OutOfMemory };

    fn from(_error: AllocFailed<T>) -> ReadError {
        ReadError::OutOfMemory
    }
}

/// What a message says behind the file's name: `syntax at AT`, `rule R at FROM..TO`, `limit WHAT: FOUND, at most MOST`
/// or `out of memory`. An error means that the writer refused.
impl fmt::Display for ReadError {
    ghost output = { λ e. Some (refusal_text e) };

    fn fmt<W: fmt::Write>(&self, f: &mut fmt::Formatter<W>) -> fmt::Result {
        match self {
            ReadError::Syntax(at) => write!(f, "syntax at {at}"),
            ReadError::Broken(rule, span) => write!(f, "{rule} at {span}"),
            ReadError::Over(limit) => write!(f, "{limit}"),
            ReadError::OutOfMemory => f.write_str("out of memory"),
        }
    }
}
