ghost use Rattle.std.specs.Prelude.{OnOk, OnErr, flat_map};
ghost use Rattle.xb_span.specs.PieceText.{piece_text};
ghost use Rattle.xls_cmd.specs.Shared.Events.{sink_events};

use itoa::Buffer;
use xb_io::{Failed, Sink};
use xb_span::Piece;

/// Puts the pieces of a message, up to the first that fails. It takes no memory.
pub fn put_pieces<S: Sink>(sink: &mut S, pieces: &[Piece<'_>]) -> Result<(), Failed>
    ensures ok { OnOk result ((sink_events S.written S.faults sink.old sink.new).puts (flat_map piece_text pieces.now)) }
    ensures failed { OnErr result ((sink_events S.written S.faults sink.old sink.new).breaks_off (flat_map piece_text pieces.now)) }
{
    for piece in pieces {
        match put_piece(sink, *piece) {
            Ok(()) => {}
            Err(Failed) => return Err(Failed),
        }
    }
    Ok(())
}

fn put_piece<S: Sink>(sink: &mut S, piece: Piece<'_>) -> Result<(), Failed>
    ensures ok { OnOk result ((sink_events S.written S.faults sink.old sink.new).puts (piece_text piece.entry)) }
    ensures failed { OnErr result ((sink_events S.written S.faults sink.old sink.new).breaks_off (piece_text piece.entry)) }
{
    match piece {
        Piece::Text(text) => sink.put(text.as_bytes()),
        Piece::Number(number) => {
            let mut buffer = Buffer::new();
            sink.put(buffer.format(number).as_bytes())
        }
    }
}
