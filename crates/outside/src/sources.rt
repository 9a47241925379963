//! A source without end, and a sink without memory.

use gettext::{Catalog, Error};
use localise_run::{Status, run};
use std::alloc::{AllocError, Global};
use std::test::Fail;
use writeable::{Sink, SinkError, SliceSource, Source, SourceFault, StringSink};

/// A document of no bundle and one request.
const DOCUMENT: &[u8] =
    b"{\"bundles\":[],\"requests\":[{\"tag\":\"fr\",\"singular\":\"Hi\",\"plural\":\"Hi\",\"count\":1}]}";

/// The words of the command.
fn render(alloc: Global) -> Result<Vec<String>, AllocError> {
    let words = vec![in alloc; String::from_str(alloc, "render")?]?;
    Ok(words)
}

/// A source of spaces without end. It doesn't tell its bytes.
#[derive(Drop)]
struct Spaces;

impl Source for Spaces {
    ghost use Rattle.std.specs.Prelude.{None, false};

    ghost left = { λ _. None };

    ghost faults = { λ _. 0 };

    ghost ended = { λ _. false };

    fn read(&mut self, buffer: &mut [u8]) -> Result<usize, SourceFault> {
        for byte in buffer.iter_mut() {
            *byte = b' ';
        }
        Ok(buffer.len())
    }
}

/// A sink that finds no memory for anything.
#[derive(Drop)]
struct Full;

impl Sink for Full {
    ghost use Rattle.std.specs.Prelude.{None, true, ⊤};
    ghost use Rattle.std.proofs.Common.{rules};

    ghost took = { λ _ _ _. ⊤ };

    ghost held = { λ _. None };

    ghost faults = { λ _. 0 };

    ghost takes_memory = { λ _. true };

    ghost took_nothing = { Prim.search rules };

    ghost took_both = { Prim.search rules };

    ghost took_held = { λ a b t h p q. Prim.cc };

    ghost took_faults = { Prim.search rules };

    ghost took_memory = { Prim.search rules };

    fn push_str(&mut self, _piece: &str) -> Result<(), SinkError> {
        Err(SinkError::NoMemory)
    }

    fn push_char(&mut self, _c: char) -> Result<(), SinkError> {
        Err(SinkError::NoMemory)
    }
}

#[test]
fn too_long_for_a_run(rt: HostRuntime) -> Result<(), Fail> {
    let words = render(rt.alloc())?;
    let mut out = StringSink::new(rt.alloc());
    let mut err = StringSink::new(rt.alloc());
    let status = run(rt.alloc(), &words, &mut Spaces, &mut out, &mut err);
    assert!(rt; status == Status::TooLong);
    assert_eq!(rt; out.as_str(), "");
    assert_eq!(rt; err.as_str(), "localise: input too long\n");
    Ok(())
}

#[test]
fn no_memory(rt: HostRuntime) -> Result<(), Fail> {
    let words = render(rt.alloc())?;
    let mut source = SliceSource::new(DOCUMENT);
    let mut err = StringSink::new(rt.alloc());
    let status = run(rt.alloc(), &words, &mut source, &mut Full, &mut err);
    assert!(rt; status == Status::NoMemory);
    assert_eq!(rt; err.as_str(), "localise: no memory\n");
    Ok(())
}

#[test]
fn too_long_for_a_catalog(rt: HostRuntime) -> Result<(), Fail> {
    let catalog = Catalog::parse(rt.alloc(), &mut Spaces);
    assert_eq!(rt; catalog.err(), Some(Error::TooLong));
    Ok(())
}
