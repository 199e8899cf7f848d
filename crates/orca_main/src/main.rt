//! The program `crowd`: standard input, output and error, and the words after its name.
#![tactic(auto)]

use orca_cli::orca;
use outside_io::{OpenGate, Sink, StdSink, StdSource, write_whole};
use std::alloc::{AllocError, Global};
use std::env;
use std::io::ErrorKind;
use std::process::ExitCode;

/// The status where memory runs out.
const NO_MEMORY: u8 = 1;

// The words after the program's name, or none where memory runs out. Where one of them isn't UTF-8, the list
// is empty, which is a faulty command line as well.
fn args_of(rt: &HostRuntime) -> Option<Vec<String>> {
    let alloc = rt.alloc();
    match env::args(rt) {
        Ok(args) => args.skip(1).collect(alloc).ok(),
        Err(error) if error.kind() == ErrorKind::OutOfMemory => None,
        Err(_) => Some(Vec::new(alloc)),
    }
}

fn words_of(alloc: Global, args: &[String]) -> Result<Vec<&str>, AllocError> {
    args.iter().map(|arg| arg.as_str()).collect(alloc)
}

// Tells that memory ran out before there were words.
fn without_words<E: Sink>(err: &mut E) -> ExitCode {
    let _written = write_whole(err, b"no memory\n");
    ExitCode::from(NO_MEMORY)
}

fn main(rt: HostRuntime) -> ExitCode {
    let alloc = rt.alloc();
    let mut source = StdSource::new(rt.stdin());
    let mut out = StdSink::new(rt.stdout());
    let mut err = StdSink::new(rt.stderr());
    let Some(args) = args_of(&rt) else {
        return without_words(&mut err);
    };
    let Ok(words) = words_of(alloc, args.as_slice()) else {
        return without_words(&mut err);
    };
    let status = orca(
        &rt,
        alloc,
        words.as_slice(),
        &mut source,
        &mut out,
        &mut err,
        &OpenGate,
    );
    ExitCode::from(status)
}
