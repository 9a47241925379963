//! Writers behind sinks, and texts that are displayed.

use icu_locale_core::{DataLocale, Script};
use std::alloc::Global;
use std::test::Fail;
use std::{fmt, io};
use tinystr::TinyStr;
use writeable::{OwnedText, Sink, SinkError, StdSink};

/// Takes at most `most` bytes a call, and fails at the call of that number, counted from 1.
#[derive(Drop)]
struct Choppy {
    took: Vec<u8>,
    most: usize,
    failing: u64,
    calls: u64,
}

impl io::Write for Choppy {
    fn write(&mut self, bytes: &[u8]) -> io::Result<usize> {
        self.calls = self.calls.saturating_add(1);
        if self.calls == self.failing {
            return Err(io::Error::from(io::ErrorKind::BrokenPipe));
        }
        let count = bytes.len().min(self.most);
        self.took.extend_from_slice(&bytes[..count])?;
        Ok(count)
    }

    fn flush(&mut self) -> io::Result<()> {
        Ok(())
    }
}

fn sink_over(alloc: Global, most: usize, failing: u64) -> StdSink<Choppy> {
    StdSink::new(Choppy {
        took: Vec::new(alloc),
        most,
        failing,
        calls: 0,
    })
}

#[test]
fn a_short_write_is_followed_up(rt: HostRuntime) -> Result<(), Fail> {
    let mut sink = sink_over(rt.alloc(), 2, 0);
    sink.push_str("Bonjour né")?;
    sink.push_char('星')?;
    sink.push_str("")?;
    assert_eq!(rt; sink.into_inner().took.as_slice(), "Bonjour né星".as_bytes());
    Ok(())
}

#[test]
fn a_failed_write_is_a_fault(rt: HostRuntime) -> Result<(), Fail> {
    let mut sink = sink_over(rt.alloc(), 2, 3);
    sink.push_str("ab")?;
    assert_eq!(rt; sink.push_str("cdef"), Err(SinkError::Fault));
    sink.push_str("gh")?;
    assert_eq!(rt; sink.into_inner().took.as_slice(), b"abcdgh".as_slice());
    Ok(())
}

#[test]
fn a_failed_write_of_a_character_is_a_fault(rt: HostRuntime) -> Result<(), Fail> {
    let mut sink = sink_over(rt.alloc(), 2, 2);
    assert_eq!(rt; sink.push_char('星'), Err(SinkError::Fault));
    sink.push_char('é')?;
    assert_eq!(rt;
        sink.into_inner().took.as_slice(),
        b"\xe6\x98\xc3\xa9".as_slice()
    );
    Ok(())
}

#[test]
fn a_write_of_nothing_is_a_fault(rt: HostRuntime) -> Result<(), Fail> {
    let mut sink = sink_over(rt.alloc(), 0, 0);
    assert_eq!(rt; sink.push_str("a"), Err(SinkError::Fault));
    assert_eq!(rt; sink.push_char('a'), Err(SinkError::Fault));
    sink.push_str("")?;
    Ok(())
}

/// Holds the texts that are written to it, up to so many.
#[derive(Drop)]
struct Page {
    text: String,
    room: u64,
}

impl fmt::Write for Page {
    fn write_str(&mut self, text: &str) -> fmt::Result {
        if self.room == 0 {
            return Err(fmt::Error);
        }
        self.room = self.room.saturating_sub(1);
        self.text.push_str(text)?;
        Ok(())
    }
}

#[test]
fn a_text_is_displayed(rt: HostRuntime) -> Result<(), Fail> {
    let alloc = rt.alloc();
    let text = OwnedText::new(alloc, "né 星")?;
    let mut page = Page {
        text: String::new(alloc),
        room: 9,
    };
    assert!(rt; fmt::Write::write_fmt(&mut page, format_args!("<{text}>")).is_ok());
    assert_eq!(rt; page.text.as_str(), "<né 星>");
    Ok(())
}

#[test]
fn a_text_that_finds_no_room_is_an_error(rt: HostRuntime) -> Result<(), Fail> {
    let alloc = rt.alloc();
    let text = OwnedText::new(alloc, "né 星")?;
    let mut page = Page {
        text: String::new(alloc),
        room: 1,
    };
    assert!(rt; fmt::Write::write_fmt(&mut page, format_args!("<{text}>")).is_err());
    assert_eq!(rt; page.text.as_str(), "<");
    Ok(())
}

/// A width in a format string is filled, and a locale is written as it is.
#[test]
fn subtags_fill_a_width(rt: HostRuntime) -> Result<(), Fail> {
    let tiny = TinyStr::<8>::try_from_bytes(b"de")?;
    let script = Script::try_from_str("Latn")?;
    let locale = DataLocale::try_from_str("sr-Latn")?;
    assert_eq!(rt;
        format!(in rt.alloc(); "{tiny:>4}|{script:<6}|{locale}")?.as_str(),
        "  de|Latn  |sr-Latn"
    );
    Ok(())
}
