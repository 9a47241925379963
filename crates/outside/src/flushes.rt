//! Runs over a writer that holds back what it takes.

use localise_run::{Status, run_and_flush};
use std::alloc::Global;
use std::io;
use std::test::Fail;
use writeable::{SliceSource, StdSink, StringSink};

/// Hands on what it took when it is flushed, if that succeeds.
#[derive(Drop)]
struct Pending {
    held: Vec<u8>,
    handed_on: Vec<u8>,
    fails: bool,
}

impl Pending {
    fn new(alloc: Global, fails: bool) -> Pending {
        Pending {
            held: Vec::new(alloc),
            handed_on: Vec::new(alloc),
            fails,
        }
    }
}

impl io::Write for Pending {
    fn write(&mut self, bytes: &[u8]) -> io::Result<usize> {
        self.held.extend_from_slice(bytes)?;
        Ok(bytes.len())
    }

    fn flush(&mut self) -> io::Result<()> {
        if self.fails {
            return Err(io::Error::from(io::ErrorKind::BrokenPipe));
        }
        self.handed_on.extend_from_slice(&self.held)?;
        self.held.clear();
        Ok(())
    }
}

/// How a run ended, what its writer handed on, and what was told.
#[derive(Drop)]
struct Ended {
    status: Status,
    handed_on: Vec<u8>,
    told: String,
}

fn flushed_run(alloc: Global, document: &[u8], fails: bool) -> Result<Ended, Fail> {
    let words = vec![in alloc; String::from_str(alloc, "render")?]?;
    let mut source = SliceSource::new(document);
    let mut out = StdSink::new(Pending::new(alloc, fails));
    let mut err = StringSink::new(alloc);
    let status = run_and_flush(alloc, &words, &mut source, &mut out, &mut err);
    Ok(Ended {
        status,
        handed_on: out.into_inner().handed_on,
        told: err.into_string(),
    })
}

/// A document of no bundle and one request.
const DOCUMENT: &[u8] = b"{\"bundles\":[],\"requests\":[\
    {\"tag\":\"fr\",\"singular\":\"Hi\",\"plural\":\"Hi\",\"count\":1}]}";

/// The same, and a request behind it whose tag is none.
const HALF: &[u8] = b"{\"bundles\":[],\"requests\":[\
    {\"tag\":\"fr\",\"singular\":\"Hi\",\"plural\":\"Hi\",\"count\":1},\
    {\"tag\":\"\",\"singular\":\"Hi\",\"plural\":\"Hi\",\"count\":1}]}";

#[test]
fn a_run_is_flushed(rt: HostRuntime) -> Result<(), Fail> {
    let ended = flushed_run(rt.alloc(), DOCUMENT, false)?;
    assert!(rt; ended.status == Status::Done);
    assert_eq!(rt; ended.handed_on.as_slice(), b"Hi\n".as_slice());
    assert_eq!(rt; ended.told.as_str(), "");
    Ok(())
}

#[test]
fn a_failed_flush_is_a_write_fault(rt: HostRuntime) -> Result<(), Fail> {
    for document in [DOCUMENT, HALF] {
        let ended = flushed_run(rt.alloc(), document, true)?;
        assert!(rt; ended.status == Status::WriteFault);
        assert_eq!(rt; ended.status.code(), 9);
        assert_eq!(rt; ended.handed_on.as_slice(), b"".as_slice());
        assert_eq!(rt; ended.told.as_str(), "localise: write fault\n");
    }
    Ok(())
}

#[test]
fn a_refused_run_is_flushed(rt: HostRuntime) -> Result<(), Fail> {
    let ended = flushed_run(rt.alloc(), HALF, false)?;
    assert_eq!(rt; ended.status.code(), 7);
    assert_eq!(rt; ended.handed_on.as_slice(), b"Hi\n".as_slice());
    assert_eq!(rt;
        ended.told.as_str(),
        "localise: request 1: tag: a subtag should not be empty\n"
    );
    Ok(())
}
