//! The program `xls`: it makes the real files and streams, and hands them to the top call.
#![tactic(auto)]

use std::env::{self, Env};
use std::io::{self, ErrorKind};
use std::process::ExitCode;
use xb_io::{HostFiles, OpenGate, StreamSink};
use xls_cmd::xls_main;

fn main(rt: HostRuntime) -> ExitCode {
    let Ok(words) = words(&rt) else {
        // The status says it too, where standard error can't be written.
        let _ = eprintln!(rt; "out of memory");
        return ExitCode::from(3);
    };
    let (stdout, stderr) = (rt.stdout(), rt.stderr());
    let mut files = HostFiles::new(&rt);
    let mut out = StreamSink::new(io::writer(&stdout));
    let mut err = StreamSink::new(io::writer(&stderr));
    let status = xls_main(
        &rt,
        rt.alloc(),
        &words,
        &mut files,
        &mut out,
        &mut err,
        &OpenGate,
    );
    ExitCode::from(status)
}

/// The words behind the program's name; none, which is no command, where one isn't UTF-8. It fails for
/// want of memory alone.
fn words(rt: &(impl Env + AllocGlobal)) -> io::Result<Vec<String>> {
    match env::args(rt) {
        Ok(args) => Ok(args.skip(1).collect(rt.alloc())?),
        Err(error) if error.kind() == ErrorKind::InvalidData => Ok(Vec::new(rt.alloc())),
        Err(error) => Err(error),
    }
}
