ghost use Rattle.std.specs.Prelude.{◌≡◌, ℕ, ◌+◌, ◌-◌, ◌^◌, ◌≤◌, ◌==◌, ◌<◌, ◌↔◌, min, Bool, false};
ghost use Rattle.std.specs.Prelude.{List, length, take, Some, IsErr, IfOk, OnOk, OnErr};
ghost use Rattle.std.specs.Io.KnownBytes.{Consumes, Keeps, IsAtEnd};
ghost use Rattle.writeable_core.specs.Sink.{Rose};
ghost use Rattle.writeable_sinks.specs.ScriptSource.{ReadScript, FailsNext};

use std::marker::Model;
use writeable_core::{Source, SourceFault};

/// A source of the bytes of a slice that gives at most so many bytes a call, and fails at one call.
/// It serves tests of reads that come in pieces or fail.
#[derive(Drop)]
pub struct ScriptSource<'a> {
    rest: &'a [u8],
    ended: bool,
    most: usize,
    failing: u64,
    calls: u64,
    faults: u64,
}

impl<'a> Model for ScriptSource<'a> {
    ghost use Rattle.std.specs.Prelude.{◌≤◌};
    ghost use Rattle.writeable_sinks.specs.ScriptSource.{ReadScript};

    ghost Value = { ReadScript };

    ghost view = { λ s.
        record {
          bytes = s.rest.now;
          ended = s.ended;
          most = s.most;
          failing = s.failing;
          calls = s.calls;
          faults = s.faults;
        } };

    ghost invariant = { λ s. 1 ≤ s.most };
}

impl ScriptSource<'_> {
    /// A source of these bytes, at most `most` a call. The call number `failing`, counted from one,
    /// fails; with 0 none does.
    pub fn new(bytes: &[u8], most: usize, failing: u64) -> ScriptSource<'_>
        requires { 1 ≤ most }
        ensures { result
            ≡ record {
              bytes = bytes.now;
              ended = false;
              most = most;
              failing = failing;
              calls = 0;
              faults = 0;
            } }
    {
        ScriptSource {
            rest: bytes,
            ended: false,
            most,
            failing,
            calls: 0,
            faults: 0,
        }
    }
}

impl Source for ScriptSource<'_> {
    ghost left = { λ s. Some s.bytes };

    ghost faults = { λ s. s.faults };

    ghost ended = { λ s. s.ended };

    fn read(&mut self, buffer: &mut [u8]) -> Result<usize, SourceFault>
        ensures count { IfOk result (λ k. k ≤ length buffer.old) }
        ensures bytes { IfOk result
            (λ k. Consumes (Some self.old.bytes) (Some self.new.bytes) (take k buffer.new)) }
        ensures end { IfOk result
            (λ k. 0 < length buffer.old → k ≡ 0 → IsAtEnd (Some self.new.bytes)) }
        ensures mark { IfOk result (λ k. 0 < length buffer.old → self.new.ended ≡ (k == 0)) }
        ensures empty { length buffer.old ≡ 0 → self.new.ended ≡ self.old.ended }
        ensures kept { OnErr result (Keeps (Some self.old.bytes) (Some self.new.bytes)) }
        ensures mark_kept { OnErr result (self.new.ended ≡ self.old.ended) }
        ensures later { self.old.faults ≤ self.new.faults }
        ensures cause { OnErr result (Rose self.old.faults self.new.faults) }
        ensures no_fault { OnOk result (self.new.faults ≡ self.old.faults) }
        ensures scripted { IsErr result ↔ FailsNext self.old }
        ensures gives { IfOk result
            (λ k. k ≡ min (length buffer.old) (min self.old.most (length self.old.bytes))) }
        ensures next { self.new.calls ≡ min (self.old.calls + 1) (2 ^ 64 - 1) }
        ensures same_script { (self.new.most ≡ self.old.most)
            × (self.new.failing ≡ self.old.failing) }
    {
        if let Some(number) = self.calls.checked_add(1) {
            self.calls = number;
            if number == self.failing {
                self.faults = self.faults.saturating_add(1);
                return Err(SourceFault::Fault);
            }
        }
        let count = buffer.len().min(self.most.min(self.rest.len()));
        let (front, rest) = self.rest.split_at(count);
        buffer[..count].copy_from_slice(front);
        self.rest = rest;
        if !buffer.is_empty() {
            self.ended = count == 0;
        }
        Ok(count)
    }
}
