//! Readers behind sources.

use reading::{ReadError, read_all};
use std::io;
use std::test::Fail;
use writeable::{Source, SourceFault, StdSource};

/// Gives its bytes, at most `most` a call, and fails at the call of that number, counted from 1.
#[derive(Drop)]
struct Flaky<'a> {
    rest: &'a [u8],
    most: usize,
    failing: u64,
    calls: u64,
}

impl io::Read for Flaky<'_> {
    fn read(&mut self, buffer: &mut [u8]) -> io::Result<usize> {
        self.calls = self.calls.saturating_add(1);
        if self.calls == self.failing {
            return Err(io::Error::from(io::ErrorKind::BrokenPipe));
        }
        let count = self.rest.len().min(self.most).min(buffer.len());
        let (front, behind) = self.rest.split_at(count);
        buffer[..count].copy_from_slice(front);
        self.rest = behind;
        Ok(count)
    }
}

fn source_of(bytes: &[u8], most: usize, failing: u64) -> StdSource<Flaky<'_>> {
    StdSource::new(Flaky {
        rest: bytes,
        most,
        failing,
        calls: 0,
    })
}

#[test]
fn one_byte_a_read(rt: HostRuntime) -> Result<(), Fail> {
    let mut source = source_of(b"abc", 1, 0);
    let mut buffer = [0u8; 4];
    for byte in [b'a', b'b', b'c'] {
        assert_eq!(rt; source.read(&mut buffer), Ok(1));
        assert_eq!(rt; buffer[0], byte);
    }
    assert_eq!(rt; source.read(&mut buffer), Ok(0));
    assert_eq!(rt; source.read(&mut buffer), Ok(0));
    Ok(())
}

#[test]
fn a_failed_read_is_a_fault_and_the_next_goes_on(rt: HostRuntime) -> Result<(), Fail> {
    let mut source = source_of(b"abcd", 2, 2);
    let mut buffer = [0u8; 4];
    assert_eq!(rt; source.read(&mut buffer), Ok(2));
    assert_eq!(rt; source.read(&mut buffer), Err(SourceFault::Fault));
    assert_eq!(rt; source.read(&mut buffer), Ok(2));
    assert_eq!(rt; &buffer[..2], b"cd".as_slice());
    assert_eq!(rt; source.read(&mut buffer), Ok(0));
    Ok(())
}

#[test]
fn an_empty_buffer_ends_nothing(rt: HostRuntime) -> Result<(), Fail> {
    let mut source = source_of(b"a", 2, 0);
    let mut buffer = [0u8; 2];
    assert_eq!(rt; source.read(&mut buffer[..0]), Ok(0));
    assert_eq!(rt; source.read(&mut buffer), Ok(1));
    assert_eq!(rt; source.read(&mut buffer), Ok(0));
    Ok(())
}

#[test]
fn all_is_read(rt: HostRuntime) -> Result<(), Fail> {
    let alloc = rt.alloc();
    let bytes = read_all(alloc, &mut source_of(b"Bonjour", 3, 0))?;
    assert_eq!(rt; bytes.as_slice(), b"Bonjour".as_slice());
    Ok(())
}

/// A read that fails in the middle is never passed over, and what was read before it is let go.
#[test]
fn a_failed_read_ends_the_reading(rt: HostRuntime) -> Result<(), Fail> {
    let alloc = rt.alloc();
    let mut source = source_of(b"Bonjour", 3, 2);
    assert_eq!(rt; read_all(alloc, &mut source).err(), Some(ReadError::Fault));
    let rest = read_all(alloc, &mut source)?;
    assert_eq!(rt; rest.as_slice(), b"jour".as_slice());
    Ok(())
}
