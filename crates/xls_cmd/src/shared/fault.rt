ghost use Rattle.std.specs.Prelude.{◌≡◌, OnOk, OnErr, flat_map};
ghost use Rattle.xb_span.specs.PieceText.{piece_text};
ghost use Rattle.xls_cmd.specs.Shared.Events.{sink_events};
ghost use Rattle.xls_cmd.specs.Shared.Fault.{in_file, line_of, named, past_file_limit, status_of};

use crate::shared::pieces::put_pieces;
use chan_file::Cause;
use xb_io::{FILE_LIMIT, Failed, Sink};
use xb_span::{Limit, Piece, ReadError, What};

/// Why a command refuses: every cause but want of memory and the outside. A cause that concerns a file has its name.
#[derive(Clone, Copy)]
pub enum Fault<N> {
    /// The words say nothing.
    Usage,
    /// The file has more bytes than [`FILE_LIMIT`].
    TooBig(N),
    /// The text is refused by its reader or its checker.
    Text(N, ReadError),
    /// The line at this byte of a file of words.
    Input(N, Cause, u32),
    /// A proc that has no legal schedule; its line says which, and why.
    Infeasible(N),
}

impl<N> Fault<N> {
    /// The status that the program ends with.
    pub fn status(&self) -> u8
        ensures { result ≡ status_of self.now }
    {
        match self {
            Fault::Usage => 2,
            Fault::TooBig(_) => 8,
            Fault::Text(_, ReadError::Syntax(_)) => 6,
            Fault::Text(_, ReadError::Broken(_, _)) => 7,
            Fault::Text(_, ReadError::Over(_)) => 8,
            Fault::Text(_, ReadError::OutOfMemory) => 3,
            Fault::Input(_, _, _) => 10,
            Fault::Infeasible(_) => 9,
        }
    }
}

impl Fault<&str> {
    /// Puts the line that says why. It takes no memory.
    pub fn put_line<S: Sink>(&self, sink: &mut S) -> Result<(), Failed>
        ensures ok { OnOk result ((sink_events S.written S.faults sink.old sink.new).puts (line_of (named self.now))) }
        ensures failed { OnErr result ((sink_events S.written S.faults sink.old sink.new).breaks_off (line_of (named self.now))) }
    {
        match *self {
            Fault::Usage => {
                let usage = "usage: xls check, ir, opt, schedule, verilog, run, sim or gen\n";
                put_pieces(sink, &[Piece::Text(usage)])
            }
            Fault::TooBig(name) => put_in_file(sink, name, &past_file_limit().pieces()),
            Fault::Text(name, error) => put_in_file(sink, name, &error.pieces()),
            Fault::Input(name, cause, at) => put_in_file(
                sink,
                name,
                &[
                    Piece::Text("input "),
                    Piece::Text(cause.word()),
                    Piece::Text(" at "),
                    Piece::Number(at as u64),
                ],
            ),
            Fault::Infeasible(line) => sink.put(line.as_bytes()),
        }
    }
}

/// What the loading of a file past the limit passes: no more bytes are counted than one.
fn past_file_limit() -> ReadError
    ensures { result ≡ past_file_limit }
{
    let most = FILE_LIMIT as u64;
    ReadError::Over(Limit {
        what: What::File,
        found: most + 1,
        most,
    })
}

/// Puts the line of a message that concerns a file.
fn put_in_file<S: Sink>(sink: &mut S, name: &str, message: &[Piece<'_>]) -> Result<(), Failed>
    ensures ok { OnOk result ((sink_events S.written S.faults sink.old sink.new).puts (in_file name.now (flat_map piece_text message.now))) }
    ensures failed { OnErr result ((sink_events S.written S.faults sink.old sink.new).breaks_off (in_file name.now (flat_map piece_text message.now))) }
{
    put_pieces(sink, &[Piece::Text(name), Piece::Text(": ")])?;
    put_pieces(sink, message)?;
    put_pieces(sink, &[Piece::Text("\n")])
}
