ghost use Rattle.std.specs.Prelude.{◌≡◌, ℕ, ◌≤◌, ◌==◌, ◌<◌, Bool, false, List, length, take, Some};
ghost use Rattle.std.specs.Prelude.{IsOk, IfOk, OnOk, OnErr};
ghost use Rattle.std.specs.Io.KnownBytes.{Consumes, Keeps, IsAtEnd};
ghost use Rattle.writeable_core.specs.Sink.{Rose};
ghost use Rattle.writeable_core.specs.SliceSource.{Unread};

use crate::{Source, SourceFault};
use std::marker::Model;

/// A source that gives the bytes of a slice. It tells them, and never fails.
#[derive(Drop)]
pub struct SliceSource<'a> {
    rest: &'a [u8],
    ended: bool,
}

impl<'a> Model for SliceSource<'a> {
    ghost use Rattle.writeable_core.specs.SliceSource.{Unread};

    ghost Value = { Unread };

    ghost view = { λ s. record { bytes = s.rest.now; ended = s.ended } };
}

impl SliceSource<'_> {
    /// A source of these bytes.
    pub fn new(bytes: &[u8]) -> SliceSource<'_>
        ensures { result ≡ record { bytes = bytes.now; ended = false } }
    {
        SliceSource {
            rest: bytes,
            ended: false,
        }
    }
}

impl Source for SliceSource<'_> {
    ghost left = { λ s. Some s.bytes };

    ghost faults = { λ _. 0 };

    ghost ended = { λ s. s.ended };

    fn read(&mut self, buffer: &mut [u8]) -> Result<usize, SourceFault>
        ensures count { IfOk result (λ k. k ≤ length buffer.old) }
        ensures bytes { IfOk result
            (λ k. Consumes (Some self.old.bytes) (Some self.new.bytes) (take k buffer.new)) }
        ensures end { IfOk result
            (λ k. 0 < length buffer.old → k ≡ 0 → IsAtEnd (Some self.new.bytes)) }
        ensures mark { IfOk result (λ k. 0 < length buffer.old → self.new.ended ≡ (k == 0)) }
        ensures empty { length buffer.old ≡ 0 → self.new.ended ≡ self.old.ended }
        ensures no_fault { OnOk result (◌≡◌ {A = ℕ} 0 0) }
        ensures kept { OnErr result (Keeps (Some self.old.bytes) (Some self.new.bytes)) }
        ensures mark_kept { OnErr result (self.new.ended ≡ self.old.ended) }
        ensures later { 0 ≤ 0 }
        ensures cause { OnErr result (Rose 0 0) }
        ensures never_fails { IsOk result }
    {
        let count = buffer.len().min(self.rest.len());
        let (front, rest) = self.rest.split_at(count);
        buffer[..count].copy_from_slice(front);
        self.rest = rest;
        if !buffer.is_empty() {
            self.ended = count == 0;
        }
        Ok(count)
    }
}
