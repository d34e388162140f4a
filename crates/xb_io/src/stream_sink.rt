ghost use Rattle.std.specs.Prelude.{◌≡◌, ◌≤◌, IfOk, OnOk, OnErr, length, take};
ghost use Rattle.std.specs.Io.KnownBytes.{Appends};
ghost use Rattle.xb_io.specs.Sink.{AppendsPrefix};

use crate::sink::{Failed, Sink};
use std::io::{ErrorKind, Write};

/// A stream that is written to, such as the standard output. It tells what was written where the stream
/// does, which the real ones don't.
#[derive(Drop)]
pub struct StreamSink<W: Write> {
    stream: W,
    faults: u64,
}

impl<W: Write> StreamSink<W> {
    pub fn new(stream: W) -> StreamSink<W>
        ensures written { ⟦<StreamSink<W> as Sink>⟧.written result ≡ W.contents stream }
        ensures faults { ⟦<StreamSink<W> as Sink>⟧.faults result ≡ 0 }
    {
        StreamSink { stream, faults: 0 }
    }
}

impl<W: Write> Sink for StreamSink<W> {
    ghost written = { λ it. W.contents it.stream };

    ghost faults = { λ it. it.faults };

    fn put(&mut self, piece: &[u8]) -> Result<(), Failed> {
        match write_whole(&mut self.stream, piece) {
            Ok(()) => Ok(()),
            Err(Failed) => {
                self.faults = self.faults.saturating_add(1);
                Err(Failed)
            }
        }
    }
}

/// Writes the whole piece, however little the stream takes at a time, and leaves none of it in a buffer.
fn write_whole<W: Write>(stream: &mut W, piece: &[u8]) -> Result<(), Failed>
    ensures ok { OnOk result (Appends (W.contents stream.old) (W.contents stream.new) piece.now) }
    ensures failed { OnErr result (AppendsPrefix (W.contents stream.old) (W.contents stream.new) piece.now) }
{
    let mut written = 0;
    for _turn in 0..u64::MAX {
        if written == piece.len() {
            return match stream.flush() {
                Ok(()) => Ok(()),
                Err(_) => Err(Failed),
            };
        }
        match write_some(stream, &piece[written..]) {
            Ok(count) => written += count,
            Err(Failed) => return Err(Failed),
        }
    }
    Err(Failed)
}

/// Writes some bytes of a piece that isn't empty, and none where the stream was interrupted.
fn write_some<W: Write>(stream: &mut W, piece: &[u8]) -> Result<usize, Failed>
    ensures ok { IfOk result (λ count. Appends (W.contents stream.old) (W.contents stream.new) (take count piece.now)) }
    ensures at_most { IfOk result (λ count. count ≤ length piece.now) }
    ensures failed { OnErr result (AppendsPrefix (W.contents stream.old) (W.contents stream.new) piece.now) }
{
    match stream.write(piece) {
        Ok(0) => Err(Failed),
        Ok(count) => Ok(count),
        Err(error) if error.kind() == ErrorKind::Interrupted => Ok(0),
        Err(_) => Err(Failed),
    }
}
