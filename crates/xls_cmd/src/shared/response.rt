ghost use Rattle.std.specs.Prelude.{MatchResult};
ghost use Rattle.xls_cmd.specs.Shared.Events.{PutsOrBreaksOff, sink_events};
ghost use Rattle.xls_cmd.specs.Shared.Response.{ShowsRefusal, Writes, refusal_line};

use crate::shared::fault::Fault;
use crate::shared::pieces::put_pieces;
use crate::shared::refusal::Refusal;
use xb_io::{Failed, Sink};
use xb_span::Piece;

/// Puts the output, or the line that says why there is none, and answers the status. An error stream that fails
/// changes nothing.
pub fn respond<O: Sink, E: Sink>(
    given: Result<Vec<u8>, Refusal<'_>>,
    out: &mut O,
    err: &mut E,
) -> u8
    ensures { let out_events = sink_events O.written O.faults out.old out.new in
        let err_events = sink_events E.written E.faults err.old err.new in
        MatchResult given.entry (λ text. Writes out_events err_events text.items result) (λ refused. ShowsRefusal out_events err_events refused result) }
{
    match given {
        Ok(text) => match out.put(&text) {
            Ok(()) => 0,
            Err(Failed) => {
                let _ = put_pieces(err, &[Piece::Text("cannot write\n")]);
                5
            }
        },
        Err(refusal) => {
            put_refusal(err, &refusal);
            refusal.status()
        }
    }
}

/// Puts the line of a refusal, or as much of it as the stream takes.
fn put_refusal<S: Sink>(sink: &mut S, refusal: &Refusal<'_>)
    ensures { PutsOrBreaksOff (sink_events S.written S.faults sink.old sink.new) (refusal_line refusal.now) }
{
    let _ = match refusal {
        Refusal::OutOfMemory => put_pieces(sink, &[Piece::Text("out of memory\n")]),
        Refusal::Unread(name) => put_pieces(
            sink,
            &[
                Piece::Text("cannot read "),
                Piece::Text(*name),
                Piece::Text("\n"),
            ],
        ),
        Refusal::Fault(fault) => fault.put_line(sink),
        Refusal::Infeasible(line) => Fault::Infeasible(line.as_str()).put_line(sink),
    };
}
