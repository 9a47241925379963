//! Prints the localised lines of a document: `localise_main render <document.json`.
#![tactic(auto)]

use localise_run::{Status, run_and_flush};
use std::io::{BufWriter, ErrorKind};
use std::process::ExitCode;
use std::rt::Env;
use std::{env, io};
use writeable_sinks::{StdSink, StdSource};

/// How much output is gathered before it is written.
const BUFFER: usize = 65_536;

fn main(rt: HostRuntime) -> ExitCode {
    let status = match words_of(&rt) {
        Ok(words) => run_buffered(&rt, &words),
        Err(status) => status,
    };
    ExitCode::from(status.code())
}

/// The words of the command line behind the program's name. A word that isn't text is no command.
fn words_of<R: Env + AllocGlobal>(rt: &R) -> Result<Vec<String>, Status> {
    let args = env::args(rt).map_err(|error| match error.kind() {
        ErrorKind::OutOfMemory => Status::NoMemory,
        _ => Status::BadWords,
    })?;
    args.skip(1)
        .collect(rt.alloc())
        .map_err(|_| Status::NoMemory)
}

/// Runs over standard input, output and error.
fn run_buffered(rt: &HostRuntime, words: &[String]) -> Status {
    let mut source = StdSource::new(rt.reader());
    let mut err = StdSink::new(rt.stderr());
    let Ok(buffer) = BufWriter::with_capacity(rt.alloc(), BUFFER, io::writer(rt)) else {
        return Status::NoMemory;
    };
    let mut out = StdSink::new(buffer);
    run_and_flush(rt.alloc(), words, &mut source, &mut out, &mut err)
}
