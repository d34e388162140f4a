//! Files and sinks, in memory and real.

use std::alloc::Global;
use std::fs;
use std::io::{self, Write};
use std::test::Fail;
use xb_io::{
    FILE_LIMIT, Failed, FaultFreeFiles, Files, HostFiles, LoadError, MemFile, MemFiles, MemSink,
    Sink, StreamSink,
};

fn two_files(alloc: Global) -> Result<Vec<MemFile>, Fail> {
    Ok(vec![in alloc;
        MemFile::new(alloc, "a.x", b"first")?,
        MemFile::new(alloc, "b.x", b"")?,
    ]?)
}

#[test]
fn files_in_memory_are_loaded_by_name(rt: HostRuntime) -> Result<(), Fail> {
    let alloc = rt.alloc();
    let mut files = MemFiles::new(two_files(alloc)?, vec![in alloc; 2]?);
    assert_eq!(rt; files.load(alloc, "a.x")?.as_slice(), b"first".as_slice());
    assert_eq!(rt; files.load(alloc, "b.x")?.as_slice(), b"".as_slice());
    assert_eq!(rt;
        files.load(alloc, "a.x").err(),
        Some(LoadError::Failed),
        "the call that is to fail"
    );
    assert_eq!(rt;
        files.load(alloc, "c.x").err(),
        Some(LoadError::Failed),
        "no such file"
    );
    assert_eq!(rt; files.load(alloc, "a.x")?.as_slice(), b"first".as_slice());
    Ok(())
}

#[test]
fn files_without_faults_hold_nothing_elsewhere(rt: HostRuntime) -> Result<(), Fail> {
    let alloc = rt.alloc();
    let mut files = FaultFreeFiles::new(two_files(alloc)?);
    assert_eq!(rt; files.load(alloc, "a.x")?.as_slice(), b"first".as_slice());
    assert_eq!(rt; files.load(alloc, "c.x")?.as_slice(), b"".as_slice());
    Ok(())
}

#[test]
fn a_file_past_the_limit_is_too_big(rt: HostRuntime) -> Result<(), Fail> {
    let alloc = rt.alloc();
    for (len, wanted) in [
        (FILE_LIMIT, None),
        (FILE_LIMIT + 1, Some(LoadError::TooBig(4_194_305))),
    ] {
        let bytes = vec![in alloc; b' '; len]?;
        let file = MemFile::new(alloc, "big.x", &bytes)?;
        let mut files = MemFiles::new(vec![in alloc; file]?, Vec::new(alloc));
        assert_eq!(rt; files.load(alloc, "big.x").err(), wanted, "{len} bytes");
    }
    Ok(())
}

#[test]
fn a_sink_in_memory_takes_what_it_has_room_for(rt: HostRuntime) -> Result<(), Fail> {
    let alloc = rt.alloc();
    let mut sink = MemSink::new(alloc, 5, vec![in alloc; 1]?)?;
    assert_eq!(rt; sink.put(b"abc"), Ok(()));
    assert_eq!(rt; sink.put(b"x"), Err(Failed), "the call that is to fail");
    assert_eq!(rt; sink.put(b"def"), Err(Failed), "past the room");
    assert_eq!(rt; sink.bytes.as_slice(), b"abcde".as_slice());
    assert_eq!(rt; sink.put(b""), Ok(()));
    Ok(())
}

#[test]
fn real_files_are_read(rt: HostRuntime) -> Result<(), Fail> {
    let alloc = rt.alloc();
    let path = "/tmp/xb_io_real_files_are_read";
    let mut files = HostFiles::new(&rt);
    fs::write(&rt, path, "some bytes")?;
    assert_eq!(rt;
        files.load(alloc, path)?.as_slice(),
        b"some bytes".as_slice()
    );
    fs::write(&rt, path, vec![in alloc; b' '; FILE_LIMIT + 1]?)?;
    assert_eq!(rt;
        files.load(alloc, path).err(),
        Some(LoadError::TooBig(FILE_LIMIT as u64 + 1))
    );
    fs::remove_file(&rt, path)?;
    assert_eq!(rt; files.load(alloc, path).err(), Some(LoadError::Failed));
    Ok(())
}

/// A stream that takes a few bytes at a time, and keeps them back until it is flushed.
#[derive(Drop)]
struct SlowStream {
    at_a_time: usize,
    kept_back: Vec<u8>,
    bytes: Vec<u8>,
}

impl Write for SlowStream {
    fn write(&mut self, buf: &[u8]) -> io::Result<usize> {
        let count = self.at_a_time.min(buf.len());
        self.kept_back.extend_from_slice(&buf[..count])?;
        Ok(count)
    }

    fn flush(&mut self) -> io::Result<()> {
        self.bytes.extend_from_slice(&self.kept_back)?;
        self.kept_back.clear();
        Ok(())
    }
}

fn slow_stream(alloc: Global, at_a_time: usize) -> SlowStream {
    SlowStream {
        at_a_time,
        kept_back: Vec::new(alloc),
        bytes: Vec::new(alloc),
    }
}

#[test]
fn a_stream_that_takes_a_byte_at_a_time_gets_all(rt: HostRuntime) {
    let mut stream = slow_stream(rt.alloc(), 1);
    let mut sink = StreamSink::new(&mut stream);
    assert_eq!(rt; sink.put(b"some "), Ok(()));
    assert_eq!(rt; sink.put(b"bytes"), Ok(()));
    assert_eq!(rt; stream.bytes.as_slice(), b"some bytes".as_slice());
}

#[test]
fn a_stream_that_takes_nothing_is_a_fault(rt: HostRuntime) {
    let mut stream = slow_stream(rt.alloc(), 0);
    let mut sink = StreamSink::new(&mut stream);
    assert_eq!(rt; sink.put(b""), Ok(()));
    assert_eq!(rt; sink.put(b"x"), Err(Failed));
}

#[test]
fn a_full_device_is_a_fault(rt: HostRuntime) -> Result<(), Fail> {
    let mut full = StreamSink::new(fs::create(&rt, "/dev/full")?);
    assert_eq!(rt; full.put(b"x"), Err(Failed));
    Ok(())
}
