//! Sinks and sources over std's writers and readers.

ghost use Rattle.std.specs.Prelude.{◌≡◌, ℕ, ◌+◌, ◌<◌, ◌≤◌, ◌==◌, Bool, true, false, List, [], ◌∷◌};
ghost use Rattle.std.specs.Prelude.{None, IfOk, OnOk, OnErr, IsErrOf, length, take, encode_utf8};
ghost use Rattle.std.specs.Str.{chars};
ghost use Rattle.std.specs.Io.KnownBytes.{Appends, Consumes, Keeps, IsAtEnd};
ghost use Rattle.std.proofs.Common.{rules};
ghost use Rattle.writeable_core.specs.Sink.{TookPrefix, HasCause, Rose};
ghost use Rattle.writeable_sinks.specs.StdSink.{Writes, Grows};
ghost use Rattle.writeable_sinks.specs.StdSinkLaws.{Writes-nothing, Writes-both};

use crate::FlushSink;
use std::io::{Read, Write};
use std::marker::Model;
use writeable_core::{Sink, SinkError, Source, SourceFault};

/// A sink over one of std's writers. It tells no text and takes no memory; each `Err` of the
/// writer, and each write that takes nothing of a piece that isn't empty, is a fault.
///
/// What the writer took of a piece is said where the writer tells what it holds: all of the piece
/// where the push answers `Ok`, and a front of its bytes, which may end inside a character, on a
/// fault.
#[derive(Drop)]
pub struct StdSink<W> {
    writer: W,
    faults: u64,
}

impl<W> Model for StdSink<W> {
    ghost use Rattle.writeable_sinks.specs.StdSink.{Writing};

    ghost Value = { Writing W };

    ghost view = { λ s. record { writer = s.writer; faults = s.faults } };
}

impl<W> StdSink<W> {
    /// A sink that writes to this writer.
    pub fn new(inner: W) -> StdSink<W>
        ensures { result ≡ record { writer = inner; faults = 0 } }
    {
        StdSink {
            writer: inner,
            faults: 0,
        }
    }

    /// The writer.
    pub fn into_inner(self) -> W
        ensures { result ≡ self.writer }
    {
        self.writer
    }
}

/// Writes all of the bytes, or what the writer takes before it fails.
fn write_whole<W: Write>(writer: &mut W, bytes: &[u8]) -> Result<(), SinkError>
    ensures ok { OnOk result (Appends (W.contents writer.old) (W.contents writer.new) bytes.now) }
    ensures front { OnErr result
        (TookPrefix Grows (W.contents writer.old) bytes.now (W.contents writer.new)) }
    ensures memory { IsErrOf result SinkError.NoMemory → ⊥ }
{
    let mut rest = bytes;
    while !rest.is_empty() {
        match writer.write(rest) {
            Ok(count) if count > 0 => rest = &rest[count..],
            _ => return Err(SinkError::Fault),
        }
    }
    Ok(())
}

impl<W: Write> Sink for StdSink<W> {
    ghost took = { Writes W.contents };

    ghost held = { λ _. None };

    ghost faults = { λ s. s.faults };

    ghost takes_memory = { λ _. false };

    ghost took_nothing = { Writes-nothing W.contents };

    ghost took_both = { Writes-both W.contents };

    ghost took_held = { λ a b t h p q. Prim.cc };

    ghost took_faults = { λ a b t p. p.later };

    ghost took_memory = { Prim.search rules };

    fn push_str(&mut self, piece: &str) -> Result<(), SinkError>
        ensures ok { OnOk result (Writes W.contents self.old (chars piece.now) self.new) }
        ensures err { OnErr result
            (TookPrefix (Writes W.contents) self.old (chars piece.now) self.new) }
        ensures cause { HasCause self.old.faults self.new.faults false result }
        ensures no_fault { OnOk result (self.new.faults ≡ self.old.faults) }
        ensures written { OnOk result
            (Appends (W.contents self.old.writer) (W.contents self.new.writer) piece.now) }
        ensures front { OnErr result
            (TookPrefix Grows (W.contents self.old.writer) piece.now (W.contents self.new.writer)) }
    {
        match write_whole(&mut self.writer, piece.as_bytes()) {
            Ok(()) => Ok(()),
            Err(error) => {
                self.faults = self.faults.saturating_add(1);
                Err(error)
            }
        }
    }

    fn push_char(&mut self, c: char) -> Result<(), SinkError>
        ensures ok { OnOk result (Writes W.contents self.old (c ∷ []) self.new) }
        ensures err { OnErr result (TookPrefix (Writes W.contents) self.old (c ∷ []) self.new) }
        ensures cause { HasCause self.old.faults self.new.faults false result }
        ensures no_fault { OnOk result (self.new.faults ≡ self.old.faults) }
        ensures written { OnOk result
            (Appends (W.contents self.old.writer) (W.contents self.new.writer) (encode_utf8 c)) }
        ensures front { OnErr result
            (TookPrefix Grows (W.contents self.old.writer) (encode_utf8 c)
            (W.contents self.new.writer)) }
    {
        let mut buffer = [0u8; 4];
        self.push_str(c.encode_utf8(&mut buffer))
    }
}

impl<W: Write> FlushSink for StdSink<W> {
    ghost flushes = { λ a b. b.faults ≡ a.faults };

    /// Flushes the writer. An `Err` of it is a fault.
    fn flush(&mut self) -> Result<(), SinkError>
        ensures taken { Writes W.contents self.old [] self.new }
        ensures cause { HasCause self.old.faults self.new.faults false result }
        ensures flushed { OnOk result (self.new.faults ≡ self.old.faults) }
        ensures kept { Keeps (W.contents self.old.writer) (W.contents self.new.writer) }
    {
        match self.writer.flush() {
            Ok(()) => Ok(()),
            Err(_) => {
                self.faults = self.faults.saturating_add(1);
                Err(SinkError::Fault)
            }
        }
    }
}

/// A source over one of std's readers. It tells no bytes, and each `Err` of the reader is a fault.
///
/// What a read took from the reader is said where the reader tells what remains in it.
#[derive(Drop)]
pub struct StdSource<R> {
    reader: R,
    faults: u64,
    ended: bool,
}

impl<R> Model for StdSource<R> {
    ghost use Rattle.writeable_sinks.specs.StdSource.{Reading};

    ghost Value = { Reading R };

    ghost view = { λ s. record { reader = s.reader; faults = s.faults; ended = s.ended } };
}

impl<R> StdSource<R> {
    /// A source that reads from this reader.
    pub fn new(inner: R) -> StdSource<R>
        ensures { result ≡ record { reader = inner; faults = 0; ended = false } }
    {
        StdSource {
            reader: inner,
            faults: 0,
            ended: false,
        }
    }
}

impl<R: Read> Source for StdSource<R> {
    ghost left = { λ _. None };

    ghost faults = { λ s. s.faults };

    ghost ended = { λ s. s.ended };

    fn read(&mut self, buffer: &mut [u8]) -> Result<usize, SourceFault>
        ensures count { IfOk result (λ k. k ≤ length buffer.old) }
        ensures bytes { IfOk result (λ k. Consumes None None (take k buffer.new)) }
        ensures end { IfOk result (λ k. 0 < length buffer.old → k ≡ 0 → IsAtEnd None) }
        ensures mark { IfOk result (λ k. 0 < length buffer.old → self.new.ended ≡ (k == 0)) }
        ensures empty { length buffer.old ≡ 0 → self.new.ended ≡ self.old.ended }
        ensures kept { OnErr result (Keeps None None) }
        ensures mark_kept { OnErr result (self.new.ended ≡ self.old.ended) }
        ensures later { self.old.faults ≤ self.new.faults }
        ensures cause { OnErr result (Rose self.old.faults self.new.faults) }
        ensures no_fault { OnOk result (self.new.faults ≡ self.old.faults) }
        ensures given { IfOk result
            (λ k. Consumes (R.remaining self.old.reader) (R.remaining self.new.reader)
            (take k buffer.new)) }
        ensures reader_end { IfOk result
            (λ k. 0 < length buffer.old → k ≡ 0 → IsAtEnd (R.remaining self.new.reader)) }
        ensures reader_kept { OnErr result
            (Keeps (R.remaining self.old.reader) (R.remaining self.new.reader)) }
    {
        match self.reader.read(buffer) {
            Ok(count) => {
                if !buffer.is_empty() {
                    self.ended = count == 0;
                }
                Ok(count)
            }
            Err(_) => {
                self.faults = self.faults.saturating_add(1);
                Err(SourceFault::Fault)
            }
        }
    }
}
